//! A list that is flat until it is written after a freeze.

ghost use Rattle.std.specs.Prelude.{◌≡◌, ℕ, ◌+◌, ◌-◌, ◌<◌, ◌≤◌, [], ◌∷◌, ◌++◌, true, IfOk, OnOk, OnErr, length, get_or, set, replicate, slice_get};
ghost use Rattle.std.specs.Option.{option_copied};
ghost use Rattle.dl_pages.specs.Paged.{Owns, OwnsNothing, KeepsOwned, IsExact};

use crate::paged::Paged;
use dl_base::Memory;
use std::alloc::Global;
use std::marker::Model;
use std::mem;
use std::sync::Arc;

/// A list that stands flat as long as it can: while nobody shares it, and while those who share it only read. Whoever writes it after a
/// freeze copies it into pages first, once; from then on it is shared by its sections of 64 pages.
pub struct Table<T> {
    form: Form<T>,
}

/// How a list stands.
#[derive(Drop)]
enum Form<T> {
    /// All of it is owned.
    Flat(Vec<T>),
    /// All of it is shared, or can be.
    Whole(Arc<Vec<T>>),
    Paged(Paged<T>),
}

impl<T: Drop> Drop for Table<T> {
    fn drop(self) {
        let Table { form: _ } = self;
    }
}

impl<T> Model for Table<T> {
    ghost use Rattle.dl_pages.specs.Paged.{PagedItems};

    ghost Value = { PagedItems T };

    ghost use Rattle.dl_pages.specs.KeptTable.{table_of};

    ghost view = { λ t. table_of t.form };
}

impl<T> Table<T> {
    /// No elements. Takes no memory.
    pub fn make(alloc: Global) -> Table<T>
        ensures items { result.items ≡ [] }
        ensures owned { result.owned ≡ [] }
    {
        Table {
            form: Form::Flat(Vec::new(alloc)),
        }
    }

    /// No elements, with room for so many.
    pub fn with_room(alloc: Global, room: usize) -> Result<Table<T>, Memory>
        ensures items { IfOk result (λ list. list.items ≡ []) }
        ensures room { IfOk result (λ list. room ≤ list.spare) }
    {
        let items = Vec::with_capacity(alloc, room)?;
        Ok(Table {
            form: Form::Flat(items),
        })
    }

    /// An element at the end, in room that is there. It is owned. Takes no memory.
    #[inline(always)]
    pub fn push(&mut self, value: T)
        requires { 0 < self.old.spare }
        ensures items { self.new.items ≡ self.old.items ++ value ∷ [] }
        ensures owned { self.new.owned ≡ self.old.owned ++ true ∷ [] }
        ensures spare { self.new.spare + 1 ≡ self.old.spare }
    {
        match &mut self.form {
            Form::Flat(items) => items.push_reserved(value),
            Form::Whole(_) => unreachable!(),
            Form::Paged(pages) => pages.push(value),
        }
    }

    /// How many elements there are. Each place is owned or not.
    #[inline(always)]
    pub fn len(&self) -> usize
        ensures items { result ≡ length self.now.items }
        ensures owned { result ≡ length self.now.owned }
    {
        match &self.form {
            Form::Flat(items) => items.len(),
            Form::Whole(items) => items.len(),
            Form::Paged(pages) => pages.len(),
        }
    }

    /// The element at a place.
    #[inline(always)]
    pub fn at(&self, at: usize) -> &T
        requires { at < length self.now.items }
        ensures { result.now ≡ get_or self.now.items at result.now }
    {
        match &self.form {
            Form::Flat(items) => &items[at],
            Form::Whole(items) => &items[at],
            Form::Paged(pages) => pages.get(at),
        }
    }

    /// The element at a place, or none past the end.
    #[inline(always)]
    pub fn get(&self, at: usize) -> Option<&T>
        ensures { option_copied result ≡ slice_get self.now.items at }
    {
        match &self.form {
            Form::Flat(items) => items.get(at),
            Form::Whole(items) => items.get(at),
            Form::Paged(pages) => pages.find(at),
        }
    }

    /// An element in the place of another, which is returned. The place is owned. Takes no memory.
    #[inline(always)]
    pub fn put(&mut self, at: usize, value: T) -> T
        requires { Owns self.old at }
        ensures value { result ≡ get_or self.old.items at result }
        ensures items { self.new.items ≡ set self.old.items at value }
        ensures owned { self.new.owned ≡ self.old.owned }
        ensures spare { self.new.spare ≡ self.old.spare }
    {
        match &mut self.form {
            Form::Flat(items) => {
                let place = &mut items[at];
                mem::replace(place, value)
            }
            Form::Whole(_) => unreachable!(),
            Form::Paged(pages) => pages.put(at, value),
        }
    }

    /// Where its memory comes from.
    pub fn alloc(&self) -> Global {
        match &self.form {
            Form::Flat(items) => *items.allocator(),
            Form::Whole(items) => *items.allocator(),
            Form::Paged(pages) => pages.alloc(),
        }
    }
}

impl<T: Drop> Table<T> {
    /// Nothing is owned from now on, so that the list can be shared. It costs one `Arc`, or one for each page and each section that was
    /// owned; no element is copied. `Memory` where there is none for that: the elements stay, and less may be owned.
    pub fn freeze(&mut self) -> Result<(), Memory>
        ensures items { self.new.items ≡ self.old.items }
        ensures shared { OnOk result (OwnsNothing self.new) }
    {
        if let Form::Flat(items) = &mut self.form {
            let alloc = *items.allocator();
            let items = mem::replace(items, Vec::new(alloc));
            match Arc::new(alloc, items) {
                Ok(shared) => self.form = Form::Whole(shared),
                Err(failed) => {
                    self.form = Form::Flat(failed.value);
                    return Err(Memory);
                }
            }
        }
        match &mut self.form {
            Form::Flat(_) => unreachable!(),
            Form::Whole(_) => Ok(()),
            Form::Paged(pages) => pages.freeze(),
        }
    }

    /// An equal list, which shares all elements: one pointer is copied, or one for each section. `Memory` where there is none for the
    /// pointers, or where a count is full.
    pub fn share(&self) -> Result<Table<T>, Memory>
        requires { OwnsNothing self.now }
        ensures items { IfOk result (λ list. list.items ≡ self.now.items) }
        ensures owned { IfOk result (λ list. list.owned ≡ self.now.owned) }
    {
        match &self.form {
            // All of a flat list is owned, so it is empty here.
            Form::Flat(items) => Ok(Table::make(*items.allocator())),
            Form::Whole(items) => Ok(Table {
                form: Form::Whole(Arc::try_clone(items)?),
            }),
            Form::Paged(pages) => Ok(Table {
                form: Form::Paged(pages.share()?),
            }),
        }
    }
}

impl<T: Clone> Table<T> {
    /// Room for so many elements more. A whole list that is shared is copied into pages for it, once. `Memory` where there is none: the
    /// elements stay, and what is owned.
    #[inline(always)]
    pub fn reserve(&mut self, more: usize) -> Result<(), Memory>
        requires { IsExact T.is_clone }
        ensures items { self.new.items ≡ self.old.items }
        ensures owned { KeepsOwned self.old self.new }
        ensures same_owned { OnErr result (self.new.owned ≡ self.old.owned) }
        ensures room { OnOk result (more ≤ self.new.spare) }
    {
        if let Form::Whole(items) = &self.form {
            let mut pages = in_pages(*items.allocator(), items.as_slice())?;
            pages.reserve(more)?;
            self.form = Form::Paged(pages);
            return Ok(());
        }
        match &mut self.form {
            Form::Flat(items) => items.reserve(more)?,
            Form::Whole(_) => unreachable!(),
            Form::Paged(pages) => pages.reserve(more)?,
        }
        Ok(())
    }

    /// An equal list. What is frozen is shared, at the cost of one pointer or of one for each section; a list of which some is owned is
    /// copied whole. `Memory` where there is none for that.
    pub fn copy(&self) -> Result<Table<T>, Memory>
        requires { IsExact T.is_clone }
        ensures { IfOk result (λ list. list.items ≡ self.now.items) }
    {
        match &self.form {
            Form::Flat(items) => Ok(Table {
                form: Form::Flat(cloned(*items.allocator(), items.as_slice())?),
            }),
            Form::Whole(items) => Ok(Table {
                form: Form::Whole(Arc::try_clone(items)?),
            }),
            Form::Paged(pages) => Ok(Table {
                form: Form::Paged(pages.copy()?),
            }),
        }
    }

    /// The place may be written from now on. The one page that it is in is copied where it is shared, and so are the pointers of its section; a
    /// whole list that is shared is copied into pages, once. `Memory` where there is none for the copy: the elements stay, and what is owned.
    pub fn own(&mut self, at: usize) -> Result<(), Memory>
        requires exact { IsExact T.is_clone }
        requires within { at < length self.old.items }
        ensures items { self.new.items ≡ self.old.items }
        ensures owned { KeepsOwned self.old self.new }
        ensures same_owned { OnErr result (self.new.owned ≡ self.old.owned) }
        ensures here { OnOk result (Owns self.new at) }
        ensures spare { OnOk result (self.old.spare ≤ self.new.spare) }
    {
        if let Form::Whole(items) = &self.form {
            let mut pages = in_pages(*items.allocator(), items.as_slice())?;
            pages.own(at)?;
            self.form = Form::Paged(pages);
            return Ok(());
        }
        match &mut self.form {
            Form::Flat(_) => Ok(()),
            Form::Whole(_) => unreachable!(),
            Form::Paged(pages) => pages.own(at),
        }
    }
}

impl<T: Copy> Table<T> {
    /// Goes up to a length. Each new place has the given value, and is owned. Where the last page was shared and has room for more, it is
    /// copied, and so is a whole list that was shared, into pages. `Memory` where there is none: the elements stay, and what is owned.
    pub fn widen(&mut self, len: usize, value: T) -> Result<(), Memory>
        requires exact { IsExact T.is_clone }
        requires longer { length self.old.items ≤ len }
        ensures items { OnOk result (self.new.items ≡ self.old.items ++ replicate (len - length self.old.items) value) }
        ensures owned { KeepsOwned self.old self.new }
        ensures fresh { OnOk result ((at : ℕ) → length self.old.items ≤ at → at < len → Owns self.new at) }
        ensures same { OnErr result (self.new.items ≡ self.old.items) }
        ensures same_owned { OnErr result (self.new.owned ≡ self.old.owned) }
    {
        if let Form::Whole(items) = &self.form {
            let mut pages = in_pages(*items.allocator(), items.as_slice())?;
            pages.reserve(len - pages.len())?;
            fill(&mut pages, len, value);
            self.form = Form::Paged(pages);
            return Ok(());
        }
        match &mut self.form {
            Form::Flat(items) => items.resize(len, value)?,
            Form::Whole(_) => unreachable!(),
            Form::Paged(pages) => {
                pages.reserve(len - pages.len())?;
                fill(pages, len, value);
            }
        }
        Ok(())
    }
}

/// Copies of the elements.
fn cloned<T: Clone>(alloc: Global, items: &[T]) -> Result<Vec<T>, Memory>
    requires { IsExact T.is_clone }
    ensures { IfOk result (λ copy. copy.items ≡ items.now) }
{
    let mut copy = Vec::new(alloc);
    copy.extend_with_clones(items)?;
    Ok(copy)
}

/// Copies of the elements, in pages.
fn in_pages<T: Clone>(alloc: Global, items: &[T]) -> Result<Paged<T>, Memory>
    requires { IsExact T.is_clone }
    ensures { IfOk result (λ pages. pages.items ≡ items.now) }
{
    let mut pages = Paged::make(alloc);
    pages.reserve(items.len())?;
    for item in items {
        pages.push(item.clone()?);
    }
    Ok(pages)
}

/// Goes up to a length by copies of a value, in room that is there.
fn fill<T: Copy>(pages: &mut Paged<T>, len: usize, value: T)
    requires longer { length pages.old.items ≤ len }
    requires room { len ≤ length pages.old.items + pages.old.spare }
    ensures items { pages.new.items ≡ pages.old.items ++ replicate (len - length pages.old.items) value }
    ensures owned { KeepsOwned pages.old pages.new }
    ensures fresh { (at : ℕ) → length pages.old.items ≤ at → at < len → Owns pages.new at }
{
    for _ in pages.len()..len {
        pages.push(value);
    }
}
