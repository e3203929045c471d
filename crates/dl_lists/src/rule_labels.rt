//! Labels by the numbers of their rules.

ghost use Rattle.std.specs.Prelude.{◌≡◌, ◌<◌, ◌≤◌, ◌↔◌, [], ◌∷◌, ◌++◌, Some, None, false, IsSome, OnOk, OnErr, IfOk, IfSome, IfNone, Contains, length, get_or, if◌then◌else◌};
ghost use Rattle.dl_lists.specs.Last.{IsLast};
ghost use Rattle.dl_lists.specs.Labels.{no_labels};

use crate::entries::Entries;
use crate::label_names::LabelNames;
use dl_base::Memory;
use dl_lit::{Name, NameSet};
use std::alloc::Global;
use std::marker::Model;

/// The label of each rule's number. It stays when the rule goes, and a later rule may have the same label again. Each label is kept
/// once.
pub struct RuleLabels {
    alloc: Global,
    names: LabelNames,
    entries: Entries,
    ready: Ready,
}

impl Drop for RuleLabels {
    fn drop(self) {
        let RuleLabels {
            alloc: _,
            names: _,
            entries: _,
            ready: _,
        } = self;
    }
}

/// The label for which there is memory.
#[derive(Clone, Copy, Debug, PartialEq, Eq)]
enum Ready {
    Nothing,
    /// It stands last among the names, and is not shared. No number has it.
    New,
    /// It is the name at this entry, and some number has it.
    Again(usize),
}

impl Model for RuleLabels {
    ghost use Rattle.dl_lists.specs.Labels.{LabelLists};
    ghost use Rattle.dl_lists.specs.KeptLabels.{labels_of, IsKeptLabels};

    ghost Value = { LabelLists };

    ghost view = { labels_of };

    ghost invariant = { IsKeptLabels };
}

impl RuleLabels {
    /// No labels. Takes no memory.
    pub fn make(alloc: Global) -> RuleLabels
        ensures { result ≡ no_labels }
    {
        RuleLabels {
            alloc,
            names: LabelNames::make(alloc),
            entries: Entries::make(),
            ready: Ready::Nothing,
        }
    }

    /// These names in their order, each the label of a number. Takes no memory.
    pub fn of(names: NameSet<Name>) -> RuleLabels
        requires { length names.keys ≤ 4294967295 }
        ensures { result ≡ record { labels = names.keys; ready = None } }
    {
        let alloc = *names.allocator();
        let entries = Entries::of(names.len());
        RuleLabels {
            alloc,
            names: LabelNames::of(names),
            entries,
            ready: Ready::Nothing,
        }
    }

    /// Adds a label at the end where no number has it, and tells whether it did. Takes one look-up.
    #[inline(always)]
    pub fn add(&mut self, label: Name) -> Result<bool, Memory>
        requires { self.old.ready ≡ None }
        ensures new { IfOk result (λ new. (new ≡ false) ↔ Contains self.old.labels label) }
        ensures labels { IfOk result (λ new. self.new.labels ≡ self.old.labels ++ (if new then label ∷ [] else [])) }
        ensures err { OnErr result (self.new.labels ≡ self.old.labels) }
        ensures ready { self.new.ready ≡ None }
    {
        self.entries.reserve()?;
        let new = self.names.insert(label)?;
        if new {
            self.entries.push_new();
        }
        Ok(new)
    }

    /// Takes the memory for one more number with a label, which some may have already. The first that is had already takes memory by
    /// how many numbers there are.
    pub fn prepare(&mut self, label: &Name) -> Result<(), Memory>
        requires { self.old.ready ≡ None }
        ensures labels { self.new.labels ≡ self.old.labels }
        ensures ready { OnOk result (self.new.ready ≡ Some label.now) }
        ensures err { OnErr result (self.new.ready ≡ None) }
    {
        match self.names.find(label) {
            Some(entry) => {
                self.entries.part(self.alloc)?;
                self.entries.prepare_again(entry)?;
                self.entries.reserve()?;
                self.ready = Ready::Again(entry);
            }
            None => {
                self.entries.reserve()?;
                let label = label.copy()?;
                self.names.insert(label)?;
                self.ready = Ready::New;
            }
        }
        Ok(())
    }

    /// The label that is prepared goes last. Takes no memory.
    pub fn put(&mut self)
        requires { IsSome self.old.ready }
        ensures labels { IfSome self.old.ready (λ label. self.new.labels ≡ self.old.labels ++ label ∷ []) }
        ensures ready { self.new.ready ≡ None }
    {
        match self.ready {
            Ready::Nothing => unreachable!(),
            Ready::New => self.entries.push_new(),
            Ready::Again(entry) => self.entries.push_again(entry),
        }
        self.ready = Ready::Nothing;
    }

    /// What is prepared is forgotten. Takes no memory.
    pub fn forget(&mut self)
        ensures labels { self.new.labels ≡ self.old.labels }
        ensures ready { self.new.ready ≡ None }
    {
        let count = self.entries.count();
        self.names.truncate(count);
        self.ready = Ready::Nothing;
    }

    /// From here on a copy shares most of the labels, and copies those that come later. Where there is no memory, it shares less.
    pub fn freeze(&mut self)
        requires { self.old.ready ≡ None }
        ensures { self.new ≡ self.old }
    {
        self.names.freeze();
        self.entries.freeze();
    }

    /// How many numbers there are.
    pub fn len(&self) -> usize
        ensures { result ≡ length self.now.labels }
    {
        self.entries.len()
    }

    /// The label of a number.
    pub fn label(&self, number: usize) -> &Name
        requires { number < length self.now.labels }
        ensures { result.now ≡ get_or self.now.labels number [] }
    {
        self.names.name(self.entries.entry(number))
    }

    /// The last number with a label; `None` exactly where no number has it. Takes one look-up.
    #[inline(always)]
    pub fn find(&self, label: &Name) -> Option<usize>
        ensures there { IfSome result (IsLast self.now.labels label.now) }
        ensures absent { IfNone result (¬ Contains self.now.labels label.now) }
    {
        match self.names.find(label) {
            None => None,
            Some(entry) => self.entries.last(entry),
        }
    }

    /// The same labels. Most of those that were there at the last freeze are shared, and the others are copied.
    pub fn copy(&self) -> Result<RuleLabels, Memory>
        requires { self.now.ready ≡ None }
        ensures { IfOk result (λ copy. copy ≡ self.now) }
    {
        let names = self.names.copy()?;
        let entries = self.entries.copy()?;
        Ok(RuleLabels {
            alloc: self.alloc,
            names,
            entries,
            ready: Ready::Nothing,
        })
    }
}
