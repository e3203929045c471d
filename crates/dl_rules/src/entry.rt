//! What there is memory for.

use crate::body::BodyNumbers;
use dl_theory::Kind;
use std::marker::Model;

/// A rule whose literals are numbers, by itself.
#[derive(Drop)]
pub struct Entry {
    pub kind: Kind,
    pub head: u32,
    pub body: BodyNumbers,
}

impl Model for Entry {
    ghost use Rattle.dl_rules.specs.Lines.{Line};

    ghost Value = { Line };

    ghost view = { λ e. record { kind = e.kind; head = e.head; body = e.body } };
}

/// Two rules by number, one above the other.
#[derive(Clone, Copy, Debug, PartialEq, Eq)]
pub(crate) struct Between {
    pub upper: u32,
    pub lower: u32,
}

/// What there is memory for.
#[derive(Drop)]
pub(crate) enum Room {
    Nothing,
    ForRule(Entry),
    ForLink(Between),
    /// So that a rule can go.
    ForTake(u32),
    /// So that a rule can stop to stand below another.
    ForUnlink(Between),
}
