//! What counts as derived while a list is checked.

ghost use Rattle.std.specs.Prelude.{◌≡◌, List, [], ◌∷◌, ◌++◌, OnOk, IfOk, IsTrue, ◌↔◌, Contains};
ghost use Rattle.dl_lit.specs.declared.literal.Tagged.{Tagged};
ghost use Rattle.dl_lit.specs.Literal.{tagged};
ghost use Rattle.dl_check.specs.Tags.{is_tag};

use crate::groups::Groups;
use dl_lit::{Family, Literal, Memory, Tag, Tagged};
use std::alloc::Global;

/// Tagged literals: for each literal the tags under which it stands.
pub struct Members {
    pub tags: Groups<Literal, Tag>,
}

impl Drop for Members {
    fn drop(self) {
        let Members { tags: _ } = self;
    }
}

/// How a list is read: its members count as derived, or what is not in it does.
#[derive(Clone, Copy, Debug, PartialEq, Eq)]
pub enum Reading {
    Inside,
    Outside,
}

/// What counts as derived.
#[derive(Drop)]
pub struct Derived {
    pub members: Members,
    pub reading: Reading,
}

fn is_tag(tag: &Tag, plus: bool, family: Family) -> bool
    ensures { result ≡ is_tag plus family tag.now }
{
    tag.plus == plus && tag.family == family
}

impl Members {
    ghost use Rattle.dl_check.specs.Derived.{stands, HasMembers};

    pub fn make(alloc: Global) -> Members
        ensures { HasMembers result [] }
    {
        Members {
            tags: Groups::make(alloc),
        }
    }

    /// Whether a literal stands under a tag.
    pub fn has(&self, plus: bool, family: Family, literal: &Literal) -> bool
        ensures { result ≡ stands self.now (tagged plus family literal.now) }
    {
        self.tags
            .get(literal)
            .iter()
            .any(|t| is_tag(t, plus, family))
    }

    /// Whether a tagged literal is a member.
    pub fn holds(&self, x: &Tagged) -> bool
        ensures { (xs : List Tagged) → HasMembers self.now xs → (IsTrue result ↔ Contains xs x.now) }
    {
        self.has(x.plus, x.family, &x.literal)
    }

    /// Adds a member.
    pub fn add(&mut self, member: &Tagged) -> Result<(), Memory>
        ensures { OnOk result ((xs : List Tagged) → HasMembers self.old xs → HasMembers self.new (xs ++ member.now ∷ [])) }
    {
        let tag = Tag {
            plus: member.plus,
            family: member.family,
        };
        self.tags.push(member.literal.copy()?, tag)
    }

    /// The members of a list.
    pub fn collect(alloc: Global, list: &[Tagged]) -> Result<Members, Memory>
        ensures { IfOk result (λ members. HasMembers members list.now) }
    {
        let mut members = Members::make(alloc);
        for member in list {
            members.add(member)?;
        }
        Ok(members)
    }
}

impl Derived {
    ghost use Rattle.dl_check.specs.Derived.{is_derived};

    /// Whether a tagged literal counts as derived.
    pub fn has(&self, plus: bool, family: Family, literal: &Literal) -> bool
        ensures { result ≡ is_derived self.now (tagged plus family literal.now) }
    {
        match self.reading {
            Reading::Inside => self.members.has(plus, family, literal),
            Reading::Outside => !self.members.has(plus, family, literal),
        }
    }
}
