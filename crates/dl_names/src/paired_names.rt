//! Numbers of literals.

ghost use Rattle.std.specs.Prelude.{◌≡◌, ◌<◌, ◌+◌, ◌*◌, ◌^◌, ◌++◌, ◌∷◌, [], Some, IfOk, IfSome, IfNone, OnOk, OnErr, Contains, length, position, slice_get};
ghost use Rattle.std.specs.Option.{option_map};
ghost use Rattle.dl_base.specs.Paths.{IsDistinct};
ghost use Rattle.dl_lit.specs.Borrowed.{literal_of};
ghost use Rattle.dl_lit.specs.Literal.{literal_eq, complement};
ghost use Rattle.dl_lit.specs.Names.{no_names, with_both};
ghost use Rattle.dl_names.specs.Paired.{IsPaired, flip};

use crate::shared_pairs::SharedPairs;
use dl_base::Memory;
use dl_lit::{Literal, LiteralRef};
use std::alloc::Global;
use std::marker::Model;

/// Literals by number, each beside its complement. One look-up finds both.
pub struct PairedNames {
    pairs: SharedPairs,
}

impl Drop for PairedNames {
    fn drop(self) {
        let PairedNames { pairs: _ } = self;
    }
}

impl Model for PairedNames {
    ghost use Rattle.dl_lit.specs.Names.{Numbering};

    ghost Value = { Numbering };

    ghost use Rattle.dl_names.specs.KeptNames.{numbering_of, IsKeptNames};

    ghost view = { numbering_of };

    ghost invariant = { IsKeptNames };
}

impl PairedNames {
    /// No literals.
    pub fn make(alloc: Global) -> PairedNames
        ensures { result ≡ no_names }
    {
        PairedNames {
            pairs: SharedPairs::make(alloc),
        }
    }

    /// No literals, with room for so many pairs. `Memory` where there is none for them.
    pub fn with_room(alloc: Global, pairs: usize) -> Result<PairedNames, Memory>
        ensures { IfOk result (λ names. names ≡ no_names) }
    {
        let mut empty = SharedPairs::make(alloc);
        empty.reserve(pairs)?;
        Ok(PairedNames { pairs: empty })
    }

    /// How many literals have numbers: all below it.
    pub fn len(&self) -> usize
        ensures len { result ≡ length self.now.literals }
        ensures small { result < 2 ^ 63 }
        ensures distinct { IsDistinct self.now.literals }
        ensures paired { IsPaired self.now.literals }
    {
        2 * self.pairs.len()
    }

    /// The literal with this number; `None` exactly past the last.
    #[inline(always)]
    pub fn literal(&self, number: usize) -> Option<LiteralRef<'_>>
        ensures { option_map literal_of result ≡ slice_get self.now.literals number }
    {
        match self.pairs.first(number / 2) {
            None => None,
            Some(first) => {
                if number % 2 == 0 {
                    Some(first)
                } else {
                    Some(LiteralRef {
                        positive: !first.positive,
                        ..first
                    })
                }
            }
        }
    }

    /// The number of a literal; `None` exactly where it has none.
    #[inline(always)]
    pub fn find(&self, literal: &Literal) -> Option<usize>
        ensures number { result ≡ position (literal_eq literal.now) self.now.literals }
        ensures absent { IfNone result (¬ Contains self.now.literals literal.now) }
        ensures small { IfSome result (λ n. n < 2 ^ 32) }
        ensures distinct { IsDistinct self.now.literals }
        ensures paired { IsPaired self.now.literals }
    {
        match self.pairs.find(literal) {
            None => None,
            Some((place, positive)) => {
                if positive == literal.positive {
                    Some(2 * place)
                } else {
                    Some(2 * place + 1)
                }
            }
        }
    }

    /// The number of a literal, which gets one beside its complement if it has none. One that is likely to be new is put in at once, and
    /// sought only where it was there before; any other is sought first. So it mostly costs one look-up, and no copy that is not kept.
    /// `Memory` where there is none for it, or where no more can be numbered, leaves the literals as they were.
    #[inline(always)]
    pub fn number(&mut self, literal: &Literal, likely_new: bool) -> Result<usize, Memory>
        ensures named { OnOk result (self.new.literals ≡ with_both self.old.literals literal.now) }
        ensures number { IfOk result (λ n. position (literal_eq literal.now) self.new.literals ≡ Some n) }
        ensures small { IfOk result (λ n. n < 2 ^ 32) }
        ensures kept { OnErr result (self.new.literals ≡ self.old.literals) }
        ensures same { Contains self.old.literals literal.now → self.new ≡ self.old }
        ensures distinct { IsDistinct self.new.literals }
        ensures paired { IsPaired self.new.literals }
    {
        if likely_new {
            return self.put_or_find(literal, false);
        }
        match self.find(literal) {
            Some(number) => Ok(number),
            None => self.put_or_find(literal, true),
        }
    }

    /// The number of a literal, as `number` gives it: put in, or else found.
    #[inline(always)]
    fn put_or_find(&mut self, literal: &Literal, likely_sought: bool) -> Result<usize, Memory>
        ensures named { OnOk result (self.new.literals ≡ with_both self.old.literals literal.now) }
        ensures number { IfOk result (λ n. position (literal_eq literal.now) self.new.literals ≡ Some n) }
        ensures small { IfOk result (λ n. n < 2 ^ 32) }
        ensures kept { OnErr result (self.new.literals ≡ self.old.literals) }
        ensures same { Contains self.old.literals literal.now → self.new ≡ self.old }
        ensures distinct { IsDistinct self.new.literals }
        ensures paired { IsPaired self.new.literals }
    {
        let _len = self.len();
        match self.put(literal, likely_sought)? {
            Some(number) => Ok(number),
            None => match self.find(literal) {
                Some(number) => Ok(number),
                None => Err(Memory),
            },
        }
    }

    /// Puts a literal in, beside its complement, and gives its number; `None` where it was there, or where no more can be numbered.
    #[inline(always)]
    fn put(&mut self, literal: &Literal, likely_sought: bool) -> Result<Option<usize>, Memory>
        ensures absent { IfOk result (λ put. IfSome put (λ n. ¬ Contains self.old.literals literal.now)) }
        ensures added { IfOk result (λ put. IfSome put (λ n. self.new.literals ≡ self.old.literals ++ literal.now ∷ complement literal.now ∷ [])) }
        ensures number { IfOk result (λ put. IfSome put (λ n. n ≡ length self.old.literals)) }
        ensures small { IfOk result (λ put. IfSome put (λ n. n < 2 ^ 32)) }
        ensures same { IfOk result (λ put. IfNone put (self.new ≡ self.old)) }
        ensures kept { OnErr result (self.new ≡ self.old) }
    {
        match self.pairs.put(literal, likely_sought)? {
            None => return Ok(None),
            Some(place) => Ok(Some(2 * place)),
        }
    }

    /// Keeps copies small. Names that were made by a copy, or copied from one, share a part that does not change; where much came since, this
    /// joins it to that part, so that the next copy copies at most as many pairs as the root of the others. Where there is no memory for that
    /// the parts stay. The first copy of names that nobody copied yet copies all. No clause tells what is shared.
    pub fn freeze(&mut self)
        ensures { self.new ≡ self.old }
    {
        self.pairs.freeze();
    }

    /// The same literals at the same numbers once more. It costs what came since they were frozen. `Memory` where there is none for it.
    pub fn copy(&self) -> Result<PairedNames, Memory>
        ensures { IfOk result (λ names. names ≡ self.now) }
    {
        let pairs = self.pairs.copy()?;
        Ok(PairedNames { pairs })
    }
}

/// The number of the complement: literals stand beside their complements.
pub fn other(number: usize) -> usize
    requires { number < 2 ^ 63 }
    ensures { result ≡ flip number }
{
    if number % 2 == 0 {
        number + 1
    } else {
        number - 1
    }
}
