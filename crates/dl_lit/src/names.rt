//! Numbers of literals.

ghost use Rattle.std.specs.Prelude.{◌≡◌, ◌+◌, ◌^◌, ◌<◌, ◌≤◌, IfOk, IfNone, OnOk, OnErr, IsTrue, Contains, Some, false, length, position, slice_get};
ghost use Rattle.std.specs.Option.{option_copied};
ghost use Rattle.indexmap.specs.IndexSet.{spare};
ghost use Rattle.dl_lit.specs.Literal.{literal_eq};
ghost use Rattle.dl_base.specs.Paths.{IsDistinct};
ghost use Rattle.dl_lit.specs.Names.{no_names, with_name, with_both};

use crate::literal::Literal;
use dl_base::Memory;
use indexmap::IndexSet;
use std::alloc::Global;
use std::marker::Model;

/// Distinct literals, whose places are their numbers.
pub struct Names {
    literals: IndexSet<Literal>,
    frozen: bool,
}

impl Drop for Names {
    fn drop(self) {
        let Names {
            literals: _,
            frozen: _,
        } = self;
    }
}

impl Model for Names {
    ghost use Rattle.dl_lit.specs.Names.{Numbering};

    ghost Value = { Numbering };

    ghost use Rattle.dl_lit.specs.KeptNames.{numbering_of, IsKeptNames};

    ghost view = { numbering_of };

    ghost invariant = { IsKeptNames };
}

impl Names {
    pub fn make(alloc: Global) -> Names
        ensures { result ≡ no_names }
    {
        Names {
            literals: IndexSet::new(alloc),
            frozen: false,
        }
    }

    pub fn len(&self) -> usize
        ensures len { result ≡ length self.now.literals }
        ensures small { result < 2 ^ 63 }
        ensures distinct { IsDistinct self.now.literals }
    {
        self.literals.len()
    }

    /// The literal with this number.
    pub fn literal(&self, number: usize) -> Option<&Literal>
        ensures { option_copied result ≡ slice_get self.now.literals number }
    {
        self.literals.get_index(number)
    }

    /// The number of a literal, if it has one.
    pub fn find(&self, literal: &Literal) -> Option<usize>
        ensures number { result ≡ position (literal_eq literal.now) self.now.literals }
        ensures absent { IfNone result (¬ Contains self.now.literals literal.now) }
        ensures distinct { IsDistinct self.now.literals }
    {
        self.literals.get_index_of(literal)
    }

    /// The number of a literal, which gets one if it has none.
    pub fn intern(&mut self, literal: &Literal) -> Result<usize, Memory>
        ensures named { OnOk result (self.new.literals ≡ with_name self.old.literals literal.now) }
        ensures number { IfOk result (λ n. position (literal_eq literal.now) self.new.literals ≡ Some n) }
        ensures kept { OnErr result (self.new.literals ≡ self.old.literals) }
        ensures frozen { self.new.frozen ≡ false }
        ensures distinct { IsDistinct self.new.literals }
    {
        self.frozen = false;
        let literal = literal.copy()?;
        let number = insert(&mut self.literals, literal)?;
        Ok(number)
    }

    /// Numbers a literal and its complement, or neither.
    pub fn intern_both(&mut self, literal: &Literal) -> Result<(), Memory>
        ensures named { OnOk result (self.new.literals ≡ with_both self.old.literals literal.now) }
        ensures there { OnOk result (Contains self.new.literals literal.now) }
        ensures kept { OnErr result (self.new.literals ≡ self.old.literals) }
        ensures frozen { self.new.frozen ≡ false }
        ensures distinct { IsDistinct self.new.literals }
    {
        self.frozen = false;
        let first = literal.copy()?;
        let second = literal.copy()?.complement();
        self.literals.reserve(2)?;
        put(&mut self.literals, first);
        put(&mut self.literals, second);
        Ok(())
    }

    /// From here on the names can be shared.
    pub fn freeze(&mut self) -> Result<(), Memory>
        ensures literals { self.new.literals ≡ self.old.literals }
        ensures frozen { OnOk result (IsTrue self.new.frozen) }
    {
        self.frozen = true;
        Ok(())
    }

    /// The same literals at the same numbers once more, frozen.
    pub fn share(&self) -> Result<Names, Memory>
        requires { IsTrue self.now.frozen }
        ensures { IfOk result (λ names. names ≡ self.now) }
    {
        let literals = copied(*self.literals.allocator(), self.literals.as_slice())?;
        Ok(Names {
            literals,
            frozen: true,
        })
    }
}

fn copied(alloc: Global, literals: &[Literal]) -> Result<IndexSet<Literal>, Memory>
    requires { IsDistinct literals.now }
    ensures { IfOk result (λ set. set.keys ≡ literals.now) }
{
    let mut set = IndexSet::new(alloc);
    for literal in literals {
        insert(&mut set, literal.copy()?)?;
    }
    Ok(set)
}

fn insert(literals: &mut IndexSet<Literal>, literal: Literal) -> Result<usize, Memory>
    ensures named { OnOk result (literals.new.keys ≡ with_name literals.old.keys literal) }
    ensures number { IfOk result (λ n. position (literal_eq literal) literals.new.keys ≡ Some n) }
    ensures kept { OnErr result (literals.new.keys ≡ literals.old.keys) }
{
    let (number, _) = literals.insert_full(literal)?;
    Ok(number)
}

fn put(literals: &mut IndexSet<Literal>, literal: Literal)
    requires { 0 < spare literals.old }
    ensures named { literals.new.keys ≡ with_name literals.old.keys literal }
    ensures room { spare literals.old ≤ spare literals.new + 1 }
{
    match literals.insert(literal) {
        Ok(_) => {}
        Err(_) => unreachable!(),
    }
}
