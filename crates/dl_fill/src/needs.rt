//! What nodes still ask of the nodes before them.

ghost use Rattle.std.specs.Prelude.{◌≡◌, ◌<◌, length, slice_set, replicate, false, IfOk};
ghost use Rattle.dl_fill.specs.Pruned.{asks, answered, need_of, serve};

use crate::wire::Gate;
use dl_base::Memory;
use std::alloc::Global;
use std::marker::Model;

/// What a node still asks.
#[derive(Clone, Copy)]
pub enum Need {
    /// Nothing.
    Nothing,
    /// Each of its inputs.
    Each,
    /// One of its inputs.
    One,
}

/// What each node still asks, and whether one asked since the last look.
pub struct Needs {
    needs: Vec<Need>,
    asked: bool,
}

impl Drop for Needs {
    fn drop(self) {
        let Needs { needs: _, asked: _ } = self;
    }
}

impl Model for Needs {
    ghost use Rattle.dl_fill.specs.Pruned.{Asking};

    ghost Value = { Asking };

    ghost view = { λ a. record { needs = a.needs.items; asked = a.asked } };
}

impl Needs {
    ghost use Rattle.dl_fill.specs.declared.needs.Need.TheVariants as need;

    /// Nodes that ask nothing.
    pub fn make(alloc: Global, size: usize) -> Result<Needs, Memory>
        ensures needs { IfOk result (λ a. a.needs ≡ replicate size need.Nothing) }
        ensures asked { IfOk result (λ a. a.asked ≡ false) }
    {
        let needs = vec![in alloc; Need::Nothing; size]?;
        Ok(Needs {
            needs,
            asked: false,
        })
    }

    /// Nothing was asked yet.
    pub fn begin(&mut self)
        ensures { self.new ≡ record { needs = self.old.needs; asked = false } }
    {
        self.asked = false;
    }

    /// Gives a node what it asks.
    pub fn serve(&mut self, node: usize)
        requires { node < length self.old.needs }
        ensures { self.new ≡ serve self.old node }
    {
        let need = self.needs[node];
        self.asked = self.asked || asks(need);
        self.needs[node] = answered(need);
    }

    /// A node is kept, and asks what its gate does.
    pub fn keep(&mut self, node: usize, gate: Gate)
        requires { node < length self.old.needs }
        ensures { self.new ≡ record { needs = slice_set self.old.needs node (need_of gate); asked = self.old.asked } }
    {
        self.needs[node] = need_of(gate);
    }

    /// How many nodes there are.
    pub fn size(&self) -> usize
        ensures { result ≡ length self.now.needs }
    {
        self.needs.len()
    }

    /// Whether a node asked.
    pub fn asked(&self) -> bool
        ensures { result ≡ self.now.asked }
    {
        self.asked
    }
}

fn asks(need: Need) -> bool
    ensures { result ≡ asks need }
{
    match need {
        Need::Nothing => false,
        Need::Each => true,
        Need::One => true,
    }
}

/// What it asks once it was given one input.
fn answered(need: Need) -> Need
    ensures { result ≡ answered need }
{
    match need {
        Need::Nothing => Need::Nothing,
        Need::Each => Need::Each,
        Need::One => Need::Nothing,
    }
}

fn need_of(gate: Gate) -> Need
    ensures { result ≡ need_of gate }
{
    match gate {
        Gate::Every => Need::Each,
        Gate::Either => Need::One,
        Gate::Now => Need::Nothing,
        Gate::Never => Need::Nothing,
    }
}
