//! A page of a list: a few elements, which the list has for itself or shares.

ghost use Rattle.std.specs.Prelude.{◌≡◌, ℕ, ◌<◌, [], ◌∷◌, ◌++◌, ◌≤◌, true, false, IfOk, OnOk, OnErr, length, get_or, set};
ghost use Rattle.std.specs.Vec.{vec_capacity};
ghost use Rattle.dl_pages.specs.Paged.{IsExact};
ghost use Rattle.dl_pages.specs.Pages.{PageItems, empty_page, page_at, pushed, written};

use dl_base::Memory;
use std::alloc::{AllocError, Global};
use std::boxed::Box;
use std::marker::Model;
use std::mem;
use std::sync::Arc;

/// As many elements as a page has room for.
pub(crate) const PAGE: usize = 64;

/// Up to 64 elements. A page that is owned has room for that many. It is a pointer, and whose the elements are.
pub(crate) struct Page<T> {
    elements: Elements<T>,
}

/// Elements of one list, or of all that share them.
#[derive(Drop)]
enum Elements<T> {
    Own(Box<Vec<T>>),
    Shared(Arc<Vec<T>>),
}

impl<T: Drop> Drop for Page<T> {
    fn drop(self) {
        let Page { elements: _ } = self;
    }
}

impl<T> Model for Page<T> {
    ghost use Rattle.dl_pages.specs.Pages.{PageItems};

    ghost Value = { PageItems T };

    ghost use Rattle.dl_pages.specs.KeptPage.{page_of, IsKeptPage};

    ghost view = { λ p. page_of p.elements };

    ghost invariant = { λ p. IsKeptPage p.elements };
}

impl<T> Page<T> {
    /// The element at a place.
    #[inline(always)]
    pub(crate) fn at(&self, at: usize) -> &T
        requires { at < length self.now.items }
        ensures { result.now ≡ get_or self.now.items at result.now }
    {
        match &self.elements {
            Elements::Own(items) => &items[at],
            Elements::Shared(items) => &items[at],
        }
    }

    /// An element at the end, in room that is there.
    #[inline(always)]
    pub(crate) fn push(&mut self, value: T)
        requires owned { self.old.owned ≡ true }
        requires room { length self.old.items < 64 }
        ensures items { self.new.items ≡ self.old.items ++ value ∷ [] }
        ensures owned { self.new.owned ≡ true }
    {
        match &mut self.elements {
            Elements::Own(items) => items.push_reserved(value),
            Elements::Shared(_) => unreachable!(),
        }
    }

    /// An element in the place of another, which is returned.
    #[inline(always)]
    pub(crate) fn put(&mut self, at: usize, value: T) -> T
        requires owned { self.old.owned ≡ true }
        requires within { at < length self.old.items }
        ensures value { result ≡ get_or self.old.items at result }
        ensures items { self.new.items ≡ set self.old.items at value }
        ensures owned { self.new.owned ≡ true }
    {
        match &mut self.elements {
            Elements::Own(items) => {
                let place = &mut items[at];
                mem::replace(place, value)
            }
            Elements::Shared(_) => unreachable!(),
        }
    }

    /// Whether the page may be written.
    pub(crate) fn is_owned(&self) -> bool
        ensures { result ≡ self.now.owned }
    {
        match &self.elements {
            Elements::Own(_) => true,
            Elements::Shared(_) => false,
        }
    }

    /// One more holder of a page that is shared. `Memory` where its count is full.
    pub(crate) fn share(&self) -> Result<Page<T>, Memory>
        requires { self.now.owned ≡ false }
        ensures { IfOk result (λ page. page ≡ self.now) }
    {
        match &self.elements {
            Elements::Own(_) => unreachable!(),
            Elements::Shared(items) => Ok(Page {
                elements: Elements::Shared(Arc::try_clone(items)?),
            }),
        }
    }
}

impl<T: Drop> Page<T> {
    /// No elements, with room for a whole page.
    pub(crate) fn make(alloc: Global) -> Result<Page<T>, Memory>
        ensures { IfOk result (λ page. page ≡ empty_page) }
    {
        let items = Vec::with_capacity(alloc, PAGE)?;
        Ok(Page {
            elements: Elements::Own(Box::new(alloc, items)?),
        })
    }

    /// The page is shared from now on, which takes one `Arc` where it was not. `Memory` where there is none for that.
    pub(crate) fn freeze(&mut self, alloc: Global) -> Result<(), Memory>
        ensures items { self.new.items ≡ self.old.items }
        ensures shared { OnOk result (self.new.owned ≡ false) }
        ensures fewer { self.new.owned ≡ true → self.old.owned ≡ true }
    {
        if let Elements::Own(owned) = &mut self.elements {
            let items = Box::replace(owned, Vec::new(alloc));
            match Arc::new(alloc, items) {
                Ok(shared) => self.elements = Elements::Shared(shared),
                Err(failed) => {
                    let _empty = Box::replace(owned, failed.value);
                    return Err(Memory);
                }
            }
        }
        Ok(())
    }
}

impl<T: Clone> Page<T> {
    /// The page is the list's own from now on, by a copy of it where it was shared. `Memory` leaves it as it was.
    pub(crate) fn own(&mut self, alloc: Global) -> Result<(), Memory>
        requires { IsExact T.is_clone }
        ensures items { self.new.items ≡ self.old.items }
        ensures owned { OnOk result (self.new.owned ≡ true) }
        ensures err { OnErr result (self.new ≡ self.old) }
    {
        if let Elements::Shared(items) = &self.elements {
            let copy = copied(alloc, items.as_slice())?;
            self.elements = Elements::Own(copy);
        }
        Ok(())
    }
}

impl<T> Page<Page<T>> {
    /// An element at the end of one of the pages, in room that is there.
    pub(crate) fn push_in(&mut self, at: usize, value: T)
        requires owned { self.old.owned ≡ true }
        requires within { at < length self.old.items }
        requires page { (page_at self.old.items at).owned ≡ true }
        requires room { length (page_at self.old.items at).items < 64 }
        ensures items { self.new.items ≡ set self.old.items at (pushed (page_at self.old.items at) value) }
        ensures owned { self.new.owned ≡ true }
    {
        match &mut self.elements {
            Elements::Own(pages) => {
                let page = &mut pages[at];
                page.push(value);
            }
            Elements::Shared(_) => unreachable!(),
        }
    }

    /// An element of one of the pages in the place of another, which is returned.
    pub(crate) fn put_in(&mut self, at: usize, place: usize, value: T) -> T
        requires owned { self.old.owned ≡ true }
        requires within { at < length self.old.items }
        requires page { (page_at self.old.items at).owned ≡ true }
        requires place { place < length (page_at self.old.items at).items }
        ensures value { result ≡ get_or (page_at self.old.items at).items place result }
        ensures items { self.new.items ≡ set self.old.items at (written (page_at self.old.items at) place value) }
        ensures owned { self.new.owned ≡ true }
    {
        match &mut self.elements {
            Elements::Own(pages) => {
                let page = &mut pages[at];
                page.put(place, value)
            }
            Elements::Shared(_) => unreachable!(),
        }
    }
}

impl<T: Drop> Page<Page<T>> {
    /// One of the pages is shared from now on. `Memory` where there is no `Arc` for that.
    pub(crate) fn freeze_in(&mut self, at: usize, alloc: Global) -> Result<(), Memory>
        requires owned { self.old.owned ≡ true }
        requires within { at < length self.old.items }
        ensures page { (page : PageItems T) × (self.new.items ≡ set self.old.items at page) × (page.items ≡ (page_at self.old.items at).items) × (page.owned ≡ true → (page_at self.old.items at).owned ≡ true) × OnOk result (page.owned ≡ false) }
        ensures owned { self.new.owned ≡ true }
    {
        match &mut self.elements {
            Elements::Own(pages) => {
                let page = &mut pages[at];
                page.freeze(alloc)
            }
            Elements::Shared(_) => unreachable!(),
        }
    }
}

impl<T: Clone> Page<Page<T>> {
    /// One of the pages is owned from now on, by a copy of it where it was shared. `Memory` leaves it as it was.
    pub(crate) fn own_in(&mut self, at: usize, alloc: Global) -> Result<(), Memory>
        requires exact { IsExact T.is_clone }
        requires owned { self.old.owned ≡ true }
        requires within { at < length self.old.items }
        ensures page { (page : PageItems T) × (self.new.items ≡ set self.old.items at page) × (page.items ≡ (page_at self.old.items at).items) × OnOk result (page.owned ≡ true) × OnErr result (page ≡ page_at self.old.items at) }
        ensures owned { self.new.owned ≡ true }
    {
        match &mut self.elements {
            Elements::Own(pages) => {
                let page = &mut pages[at];
                page.own(alloc)
            }
            Elements::Shared(_) => unreachable!(),
        }
    }
}

/// An equal page, where a copy of an element is that element. Who has a shared page shares it, and elements of a page that is owned are copied.
impl<T: Clone> Clone for Page<T> {
    ghost is_clone = { λ page copy. IsExact T.is_clone → copy ≡ page };

    fn clone(&self) -> Result<Page<T>, AllocError> {
        let elements = match &self.elements {
            Elements::Own(items) => { Elements::Own(copied(*items.allocator(), items.as_slice())?) }
            Elements::Shared(items) => Elements::Shared(Arc::try_clone(items)?),
        };
        Ok(Page { elements })
    }
}

/// Copies of elements, in room for a whole page.
fn copied<T: Clone>(alloc: Global, items: &[T]) -> Result<Box<Vec<T>>, AllocError>
    ensures items { IsExact T.is_clone → IfOk result (λ copy. copy.value.items ≡ items.now) }
    ensures room { IfOk result (λ copy. 64 ≤ vec_capacity copy.value) }
{
    let mut copy = Vec::with_capacity(alloc, PAGE)?;
    copy.extend_with_clones(items)?;
    Ok(Box::new(alloc, copy)?)
}
