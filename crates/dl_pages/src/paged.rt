//! A list in pages that can be shared.

ghost use Rattle.std.specs.Prelude.{◌≡◌, ℕ, ◌+◌, ◌<◌, ◌≤◌, [], ◌∷◌, ◌++◌, true, false, IfOk, OnOk, OnErr, length, get_or, set, take, replicate, slice_get, ◌≢◌};
ghost use Rattle.std.specs.Option.{option_copied};
ghost use Rattle.dl_pages.specs.Paged.{Owns, OwnsNothing, KeepsOwned, IsExact};
ghost use Rattle.dl_pages.specs.Pages.{parts, flags, empty_page, page_at, KeepsPages, AreNested, AreShared};

use crate::page::{PAGE, Page};
use crate::pages::Pages;
use dl_base::Memory;
use std::alloc::Global;
use std::marker::Model;

/// A list whose elements stand in pages of 64, and whose pages stand in sections of 64. A page or a section is the list's own and may be
/// written, or it is shared with other lists. Whoever drops the last list that has it frees it.
pub struct Paged<T> {
    // all pages before the last element's are full, and those behind it are empty; an owned page stands in an owned section
    pages: Pages<Page<T>>,
    len: usize,
    spare: usize,
}

impl<T: Drop> Drop for Paged<T> {
    fn drop(self) {
        let Paged {
            pages: _,
            len: _,
            spare: _,
        } = self;
    }
}

impl<T> Model for Paged<T> {
    ghost use Rattle.dl_pages.specs.Paged.{PagedItems};

    ghost Value = { PagedItems T };

    ghost use Rattle.dl_pages.specs.KeptPages.{paged_of};
    ghost use Rattle.dl_pages.specs.KeptPaged.{IsKeptPaged};

    ghost view = { λ p. paged_of p.pages.items p.spare };

    ghost invariant = { λ p. IsKeptPaged p.pages.items p.pages.owned p.len p.spare };
}

impl<T> Paged<T> {
    /// No elements, and no room for any. Takes no memory.
    pub fn make(alloc: Global) -> Paged<T>
        ensures items { result.items ≡ [] }
        ensures owned { result.owned ≡ [] }
        ensures spare { result.spare ≡ 0 }
    {
        Paged {
            pages: Pages::make(alloc),
            len: 0,
            spare: 0,
        }
    }

    /// An element at the end, in room that is there. It is owned. Takes no memory.
    #[inline(never)]
    pub fn push(&mut self, value: T)
        requires { 0 < self.old.spare }
        ensures items { self.new.items ≡ self.old.items ++ value ∷ [] }
        ensures owned { self.new.owned ≡ self.old.owned ++ true ∷ [] }
        ensures spare { self.new.spare + 1 ≡ self.old.spare }
    {
        self.pages.push_in(self.len / PAGE, value);
        self.len += 1;
        self.spare -= 1;
    }

    /// An element in the place of another, which is returned. The place is owned. Takes no memory.
    #[inline(never)]
    pub fn put(&mut self, at: usize, value: T) -> T
        requires { Owns self.old at }
        ensures value { result ≡ get_or self.old.items at result }
        ensures items { self.new.items ≡ set self.old.items at value }
        ensures owned { self.new.owned ≡ self.old.owned }
        ensures spare { self.new.spare ≡ self.old.spare }
    {
        self.pages.put_in(at / PAGE, at % PAGE, value)
    }

    /// How many elements there are. Each place is owned or not.
    #[inline(always)]
    pub fn len(&self) -> usize
        ensures items { result ≡ length self.now.items }
        ensures owned { result ≡ length self.now.owned }
    {
        self.len
    }

    /// Where its memory comes from.
    pub fn alloc(&self) -> Global {
        self.pages.alloc()
    }

    /// The element at a place, by three look-ups: its section, its page, and the element in it.
    // not inlined, as `put`: who reads a list that may be flat keeps that way short
    #[inline(never)]
    pub fn get(&self, at: usize) -> &T
        requires { at < length self.now.items }
        ensures { result.now ≡ get_or self.now.items at result.now }
    {
        let page = self.pages.get(at / PAGE);
        page.at(at % PAGE)
    }

    /// The element at a place, or none past the end.
    #[inline(never)]
    pub(crate) fn find(&self, at: usize) -> Option<&T>
        ensures { option_copied result ≡ slice_get self.now.items at }
    {
        if at < self.len() {
            Some(self.get(at))
        } else {
            None
        }
    }
}

impl<T: Drop> Paged<T> {
    /// Nothing is owned from now on, so that the list can be shared. It makes one `Arc` for each page and each section that was owned, and
    /// copies no element. It takes one look at each section, and at the pages of those that were owned. `Memory` where there is none for the
    /// `Arc`s: the elements stay, and less may be owned.
    pub fn freeze(&mut self) -> Result<(), Memory>
        ensures items { self.new.items ≡ self.old.items }
        ensures shared { OnOk result (OwnsNothing self.new) }
        ensures spare { self.new.spare ≡ 0 }
    {
        self.spare = 0;
        freeze_pages(&mut self.pages)?;
        self.pages.freeze()
    }

    /// An equal list, which shares all sections: one pointer is copied for each, and no element. Where a section is owned, as after a
    /// freeze that failed, its pages are shared one by one. `Memory` where there is none for the pointers, or where a count is full.
    pub fn share(&self) -> Result<Paged<T>, Memory>
        requires { OwnsNothing self.now }
        ensures items { IfOk result (λ list. list.items ≡ self.now.items) }
        ensures owned { IfOk result (λ list. list.owned ≡ self.now.owned) }
        ensures shared { IfOk result OwnsNothing }
        ensures spare { IfOk result (λ list. list.spare ≡ 0) }
    {
        let pages = share_pages(&self.pages, self.len.div_ceil(PAGE))?;
        Ok(Paged {
            pages,
            len: self.len,
            spare: 0,
        })
    }
}

impl<T: Clone> Paged<T> {
    /// An equal list. All sections are shared where none is owned, and all elements are copied else. `Memory` where there is none for that.
    pub fn copy(&self) -> Result<Paged<T>, Memory>
        requires { IsExact T.is_clone }
        ensures { IfOk result (λ list. list.items ≡ self.now.items) }
    {
        if self.pages.next_owned(0) == self.pages.len() {
            self.share()
        } else {
            copied(self)
        }
    }

    /// Room for so many elements more. The last page is owned for it, where it has room for more. `Memory` where there is none: the
    /// elements stay, and what is owned.
    pub fn reserve(&mut self, more: usize) -> Result<(), Memory>
        requires { IsExact T.is_clone }
        ensures items { self.new.items ≡ self.old.items }
        ensures owned { KeepsOwned self.old self.new }
        ensures same_owned { OnErr result (self.new.owned ≡ self.old.owned) }
        ensures room { OnOk result (more ≤ self.new.spare) }
    {
        if more <= self.spare {
            return Ok(());
        }
        let wanted = match self.len.checked_add(more) {
            None => return Err(Memory),
            Some(all) => all.div_ceil(PAGE),
        };
        append_pages(&mut self.pages, wanted)?;
        own_pages(&mut self.pages, self.len / PAGE, wanted)?;
        self.spare = wanted.saturating_mul(PAGE) - self.len;
        Ok(())
    }

    /// The place may be written from now on. The one page that it is in is copied where it is shared, and so are the pointers of
    /// the one section that it is in. `Memory` where there is none for the copies: the elements stay, and what is owned.
    pub fn own(&mut self, at: usize) -> Result<(), Memory>
        requires exact { IsExact T.is_clone }
        requires within { at < length self.old.items }
        ensures items { self.new.items ≡ self.old.items }
        ensures owned { KeepsOwned self.old self.new }
        ensures same_owned { OnErr result (self.new.owned ≡ self.old.owned) }
        ensures here { OnOk result (Owns self.new at) }
        ensures spare { OnOk result (self.old.spare ≤ self.new.spare) }
    {
        own_page(&mut self.pages, at / PAGE)
    }
}

/// Copies of the elements, in pages of their own.
fn copied<T: Clone>(list: &Paged<T>) -> Result<Paged<T>, Memory>
    requires { IsExact T.is_clone }
    ensures { IfOk result (λ copy. copy.items ≡ list.now.items) }
{
    let mut copy = Paged::make(list.alloc());
    copy.reserve(list.len())?;
    for at in 0..list.len() {
        copy.push(list.get(at).clone()?);
    }
    Ok(copy)
}

/// A page is owned from now on, in a section that is, and the others stay. `Memory` where there is none for the copies: all pages stay.
fn own_page<T: Clone>(pages: &mut Pages<Page<T>>, number: usize) -> Result<(), Memory>
    requires exact { IsExact T.is_clone }
    requires within { number < length pages.old.items }
    requires nested { AreNested pages.old.items pages.old.owned }
    ensures kept { KeepsPages pages.old.items pages.new.items }
    ensures nested { AreNested pages.new.items pages.new.owned }
    ensures owned { OnOk result (get_or (flags pages.new.items) number true ≡ true) }
    ensures others { (k : ℕ) → k ≢ number → get_or (flags pages.new.items) k false ≡ get_or (flags pages.old.items) k false }
    ensures same { OnErr result (pages.new.items ≡ pages.old.items) }
{
    pages.own(number)?;
    pages.own_in(number)?;
    Ok(())
}

/// The pages from one on are owned from now on, up to a number. `Memory` where there is none for the copies: then some are, but the first
/// is as it was.
fn own_pages<T: Clone>(
    pages: &mut Pages<Page<T>>,
    first: usize,
    wanted: usize,
) -> Result<(), Memory>
    requires exact { IsExact T.is_clone }
    requires within { wanted ≤ length pages.old.items }
    requires nested { AreNested pages.old.items pages.old.owned }
    ensures kept { KeepsPages pages.old.items pages.new.items }
    ensures nested { AreNested pages.new.items pages.new.owned }
    ensures owned { OnOk result ((k : ℕ) → first ≤ k → k < wanted → get_or (flags pages.new.items) k true ≡ true) }
    ensures same { OnErr result ((k : ℕ) → k ≤ first → get_or (flags pages.new.items) k false ≡ get_or (flags pages.old.items) k false) }
{
    // The first has elements. It comes when there is nothing else that can fail, so that an error leaves what is owned.
    let mut number = wanted;
    while number > first {
        number -= 1;
        own_page(pages, number)?;
    }
    Ok(())
}

/// Appends pages without elements until there are so many.
fn append_pages<T: Clone>(pages: &mut Pages<Page<T>>, wanted: usize) -> Result<(), Memory>
    requires exact { IsExact T.is_clone }
    requires nested { AreNested pages.old.items pages.old.owned }
    ensures appended { (m : ℕ) × (pages.new.items ≡ pages.old.items ++ replicate m empty_page) }
    ensures nested { AreNested pages.new.items pages.new.owned }
    ensures enough { OnOk result (wanted ≤ length pages.new.items) }
{
    while pages.len() < wanted {
        pages.widen()?;
        let page = Page::make(pages.alloc())?;
        pages.push(page);
    }
    Ok(())
}

/// All pages are shared from now on, and the sections stay as they are. `Memory` where there is none for one of them: then some are.
fn freeze_pages<T: Drop>(pages: &mut Pages<Page<T>>) -> Result<(), Memory>
    requires { AreNested pages.old.items pages.old.owned }
    ensures items { parts pages.new.items ≡ parts pages.old.items }
    ensures nested { AreNested pages.new.items pages.new.owned }
    ensures shared { OnOk result (AreShared pages.new.items) }
{
    let mut number = pages.next_owned(0);
    while number < pages.len() {
        pages.freeze_in(number)?;
        number = pages.next_owned(number + 1);
    }
    Ok(())
}

/// The first pages, so many at least, all of which are shared. `Memory` where there is none for the pointers, or where a count is full.
fn share_pages<T: Drop>(pages: &Pages<Page<T>>, used: usize) -> Result<Pages<Page<T>>, Memory>
    requires within { used ≤ length pages.now.items }
    requires nested { AreNested pages.now.items pages.now.owned }
    requires shared { (k : ℕ) → k < used → (page_at pages.now.items k).owned ≡ false }
    ensures items { IfOk result (λ copy. (n : ℕ) × (used ≤ n) × (copy.items ≡ take n pages.now.items)) }
    ensures shared { IfOk result (λ copy. AreShared copy.items) }
{
    if pages.next_owned(0) == pages.len() {
        return pages.share();
    }
    let mut copy = Pages::with_room(pages.alloc(), used)?;
    for number in 0..used {
        let page = pages.get(number);
        copy.push(page.share()?);
    }
    Ok(copy)
}
