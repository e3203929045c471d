//! A list in pages, and what is done in the pages of pages.

ghost use Rattle.std.specs.Prelude.{◌≡◌, ℕ, ◌+◌, ◌*◌, ◌<◌, ◌≤◌, [], ◌∷◌, ◌++◌, true, false, List, IfOk, OnOk, OnErr, length, get_or, set, replicate};
ghost use Rattle.dl_pages.specs.Paged.{Owns, OwnsNothing, KeepsOwned, IsExact};
ghost use Rattle.dl_pages.specs.Pages.{PageItems, parts, flags, empty_page, page_at, pushed, written, KeepsPages, AreShared};

use crate::page::{PAGE, Page};
use dl_base::Memory;
use std::alloc::Global;
use std::marker::Model;

/// A list whose elements stand in pages of 64. A page is the list's own and may be written, or it is shared with other lists. It looks at
/// each page when it is frozen or shared, so it is for lists that are not long: its elements are pages themselves, and its pages are then
/// the sections of a long list.
pub(crate) struct Pages<T> {
    // all pages before the last element's are full, and those behind it are empty
    pages: Vec<Page<T>>,
    len: usize,
    spare: usize,
}

impl<T: Drop> Drop for Pages<T> {
    fn drop(self) {
        let Pages {
            pages: _,
            len: _,
            spare: _,
        } = self;
    }
}

impl<T> Model for Pages<T> {
    ghost use Rattle.dl_pages.specs.Paged.{PagedItems};

    ghost Value = { PagedItems T };

    ghost use Rattle.dl_pages.specs.KeptPages.{paged_of, IsKept};

    ghost view = { λ p. paged_of p.pages.items p.spare };

    ghost invariant = { λ p. IsKept p.pages.items p.len p.spare };
}

impl<T> Pages<T> {
    /// No elements, and no room for any. Takes no memory.
    pub(crate) fn make(alloc: Global) -> Pages<T>
        ensures items { result.items ≡ [] }
        ensures owned { result.owned ≡ [] }
        ensures spare { result.spare ≡ 0 }
    {
        Pages {
            pages: Vec::new(alloc),
            len: 0,
            spare: 0,
        }
    }

    /// An element at the end, in room that is there. It is owned. Takes no memory.
    pub(crate) fn push(&mut self, value: T)
        requires { 0 < self.old.spare }
        ensures items { self.new.items ≡ self.old.items ++ value ∷ [] }
        ensures owned { self.new.owned ≡ self.old.owned ++ true ∷ [] }
        ensures here { Owns self.new (length self.old.items) }
        ensures spare { self.new.spare + 1 ≡ self.old.spare }
    {
        let page = &mut self.pages[self.len / PAGE];
        page.push(value);
        self.len += 1;
        self.spare -= 1;
    }

    /// How many elements there are. Each place is owned or not.
    #[inline(always)]
    pub(crate) fn len(&self) -> usize
        ensures items { result ≡ length self.now.items }
        ensures owned { result ≡ length self.now.owned }
    {
        self.len
    }

    /// Where its memory comes from.
    pub(crate) fn alloc(&self) -> Global {
        *self.pages.allocator()
    }

    /// The element at a place, by two look-ups: its page, and the element in it.
    #[inline(always)]
    pub(crate) fn get(&self, at: usize) -> &T
        requires { at < length self.now.items }
        ensures { result.now ≡ get_or self.now.items at result.now }
    {
        let page = &self.pages[at / PAGE];
        page.at(at % PAGE)
    }

    /// The first place from `from` on that is owned, or the length where there is none. A page that is shared costs one look.
    pub(crate) fn next_owned(&self, from: usize) -> usize
        requires { from ≤ length self.now.items }
        ensures from { from ≤ result }
        ensures within { result ≤ length self.now.items }
        ensures none { (at : ℕ) → from ≤ at → at < result → get_or self.now.owned at false ≡ false }
        ensures here { result < length self.now.items → Owns self.now result }
    {
        let mut at = from;
        while at < self.len {
            let page = &self.pages[at / PAGE];
            if page.is_owned() {
                return at;
            }
            at = (at / PAGE + 1).saturating_mul(PAGE);
        }
        self.len
    }
}

impl<T: Drop> Pages<T> {
    /// No elements, with room for so many.
    pub(crate) fn with_room(alloc: Global, room: usize) -> Result<Pages<T>, Memory>
        ensures items { IfOk result (λ list. list.items ≡ []) }
        ensures room { IfOk result (λ list. list.spare ≡ room) }
    {
        let mut pages = Vec::new(alloc);
        append_pages(&mut pages, room.div_ceil(PAGE))?;
        Ok(Pages {
            pages,
            len: 0,
            spare: room,
        })
    }

    /// Nothing is owned from now on, so that the list can be shared. It makes one `Arc` for each page that was owned, and copies no
    /// element. `Memory` where there is none for them: the elements stay, and less may be owned.
    pub(crate) fn freeze(&mut self) -> Result<(), Memory>
        ensures items { self.new.items ≡ self.old.items }
        ensures shared { OnOk result (OwnsNothing self.new) }
    {
        self.spare = 0;
        self.pages.truncate(self.len.div_ceil(PAGE));
        freeze_all(&mut self.pages)
    }

    /// An equal list, which shares all pages: one pointer is copied for each, and no element. `Memory` where there is none for the
    /// pointers, or where a page's count is full.
    pub(crate) fn share(&self) -> Result<Pages<T>, Memory>
        requires { OwnsNothing self.now }
        ensures items { IfOk result (λ list. list.items ≡ self.now.items) }
        ensures shared { IfOk result OwnsNothing }
    {
        let used = self.len.div_ceil(PAGE);
        let mut pages = Vec::with_capacity(*self.pages.allocator(), used)?;
        for number in 0..used {
            let page = &self.pages[number];
            pages.push(page.share()?)?;
        }
        Ok(Pages {
            pages,
            len: self.len,
            spare: 0,
        })
    }
}

impl<T: Clone> Pages<T> {
    /// Room for one element more. The last page is owned for it, where it has room for more. `Memory` where there is none: the elements
    /// stay, and what is owned.
    pub(crate) fn widen(&mut self) -> Result<(), Memory>
        requires { IsExact T.is_clone }
        ensures items { self.new.items ≡ self.old.items }
        ensures owned { KeepsOwned self.old self.new }
        ensures same_owned { OnErr result (self.new.owned ≡ self.old.owned) }
        ensures room { OnOk result (0 < self.new.spare) }
    {
        if self.spare > 0 {
            return Ok(());
        }
        let number = self.len / PAGE;
        let Some(room) = (number + 1).checked_mul(PAGE) else {
            return Err(Memory);
        };
        append_pages(&mut self.pages, number + 1)?;
        own_page(&mut self.pages, number)?;
        self.spare = room - self.len;
        Ok(())
    }

    /// The place may be written from now on. The one page that it is in is copied where it is shared, and no other. `Memory` where there
    /// is none for the copy: the elements stay, and what is owned.
    pub(crate) fn own(&mut self, at: usize) -> Result<(), Memory>
        requires exact { IsExact T.is_clone }
        requires within { at < length self.old.items }
        ensures items { self.new.items ≡ self.old.items }
        ensures owned { KeepsOwned self.old self.new }
        ensures same_owned { OnErr result (self.new.owned ≡ self.old.owned) }
        ensures here { OnOk result (Owns self.new at) }
        ensures spare { self.new.spare ≡ self.old.spare }
    {
        own_page(&mut self.pages, at / PAGE)
    }
}

impl<T> Pages<Page<T>> {
    /// An element at the end of one of the pages, in room that is there. Takes no memory.
    pub(crate) fn push_in(&mut self, number: usize, value: T)
        requires owned { Owns self.old number }
        requires page { (page_at self.old.items number).owned ≡ true }
        requires room { length (page_at self.old.items number).items < 64 }
        ensures items { self.new.items ≡ set self.old.items number (pushed (page_at self.old.items number) value) }
        ensures owned { self.new.owned ≡ self.old.owned }
        ensures spare { self.new.spare ≡ self.old.spare }
    {
        let section = &mut self.pages[number / PAGE];
        section.push_in(number % PAGE, value);
    }

    /// An element of one of the pages in the place of another, which is returned. Takes no memory.
    pub(crate) fn put_in(&mut self, number: usize, place: usize, value: T) -> T
        requires owned { Owns self.old number }
        requires page { (page_at self.old.items number).owned ≡ true }
        requires place { place < length (page_at self.old.items number).items }
        ensures value { result ≡ get_or (page_at self.old.items number).items place result }
        ensures items { self.new.items ≡ set self.old.items number (written (page_at self.old.items number) place value) }
        ensures owned { self.new.owned ≡ self.old.owned }
        ensures spare { self.new.spare ≡ self.old.spare }
    {
        let section = &mut self.pages[number / PAGE];
        section.put_in(number % PAGE, place, value)
    }
}

impl<T: Drop> Pages<Page<T>> {
    /// One of the pages is shared from now on. `Memory` where there is no `Arc` for that.
    pub(crate) fn freeze_in(&mut self, number: usize) -> Result<(), Memory>
        requires { Owns self.old number }
        ensures page { (page : PageItems T) × (self.new.items ≡ set self.old.items number page) × (page.items ≡ (page_at self.old.items number).items) × (page.owned ≡ true → (page_at self.old.items number).owned ≡ true) × OnOk result (page.owned ≡ false) }
        ensures owned { self.new.owned ≡ self.old.owned }
    {
        let alloc = self.alloc();
        let section = &mut self.pages[number / PAGE];
        section.freeze_in(number % PAGE, alloc)
    }
}

impl<T: Clone> Pages<Page<T>> {
    /// One of the pages is owned from now on, by a copy of it where it was shared. `Memory` leaves it as it was.
    pub(crate) fn own_in(&mut self, number: usize) -> Result<(), Memory>
        requires exact { IsExact T.is_clone }
        requires owned { Owns self.old number }
        ensures page { (page : PageItems T) × (self.new.items ≡ set self.old.items number page) × (page.items ≡ (page_at self.old.items number).items) × OnOk result (page.owned ≡ true) × OnErr result (page ≡ page_at self.old.items number) }
        ensures owned { self.new.owned ≡ self.old.owned }
        ensures spare { self.new.spare ≡ self.old.spare }
    {
        let alloc = self.alloc();
        let section = &mut self.pages[number / PAGE];
        section.own_in(number % PAGE, alloc)
    }
}

/// A page is owned from now on, and the others stay. `Memory` where there is none for a copy of it: all pages stay.
fn own_page<T: Clone>(pages: &mut Vec<Page<T>>, number: usize) -> Result<(), Memory>
    requires exact { IsExact T.is_clone }
    requires within { number < length pages.old.items }
    ensures kept { KeepsPages pages.old.items pages.new.items }
    ensures owned { OnOk result (get_or (flags pages.new.items) number true ≡ true) }
    ensures same { OnErr result (pages.new.items ≡ pages.old.items) }
{
    let alloc = *pages.allocator();
    let page = &mut pages[number];
    page.own(alloc)?;
    Ok(())
}

/// Appends pages without elements until there are so many.
fn append_pages<T: Drop>(pages: &mut Vec<Page<T>>, wanted: usize) -> Result<(), Memory>
    ensures appended { (m : ℕ) × (pages.new.items ≡ pages.old.items ++ replicate m empty_page) }
    ensures enough { OnOk result (wanted ≤ length pages.new.items) }
{
    while pages.len() < wanted {
        let page = Page::make(*pages.allocator())?;
        pages.push(page)?;
    }
    Ok(())
}

/// All pages are shared from now on. `Memory` where there is none for one of them: then some are.
fn freeze_all<T: Drop>(pages: &mut Vec<Page<T>>) -> Result<(), Memory>
    ensures items { parts pages.new.items ≡ parts pages.old.items }
    ensures shared { OnOk result (AreShared pages.new.items) }
{
    let alloc = *pages.allocator();
    for number in 0..pages.len() {
        let page = &mut pages[number];
        page.freeze(alloc)?;
    }
    Ok(())
}
