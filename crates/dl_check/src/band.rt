//! Rules by their kinds, and by what is derived of their bodies.

ghost use Rattle.std.specs.Prelude.{◌≡◌};
ghost use Rattle.dl_theory.specs.Tests as test;
ghost use Rattle.dl_check.specs.Derived.{is_derived};
ghost use Rattle.dl_check.specs.Bands.{has_kind, has_body, is_in, on, not_off};

use crate::derived::Derived;
use dl_lit::Family;
use dl_theory::{Kind, Rule};

/// Which kinds of rules.
#[derive(Clone, Copy, Debug, PartialEq, Eq)]
pub enum Kinds {
    All,
    /// Strict and defeasible rules; a defeater supports nothing.
    Supporting,
    Strict,
}

/// A rule is on where each body literal is derived, and off where some body literal is derived as refuted.
#[derive(Clone, Copy, Debug, PartialEq, Eq)]
pub enum Bodies {
    On,
    NotOff,
}

/// Rules of some kinds whose bodies are on, or not off, in a family.
#[derive(Clone, Copy, Debug, PartialEq, Eq)]
pub struct Band {
    pub kinds: Kinds,
    pub bodies: Bodies,
    pub family: Family,
}

pub fn on(kinds: Kinds, family: Family) -> Band
    ensures { result ≡ on kinds family }
{
    Band {
        kinds,
        bodies: Bodies::On,
        family,
    }
}

pub fn not_off(kinds: Kinds, family: Family) -> Band
    ensures { result ≡ not_off kinds family }
{
    Band {
        kinds,
        bodies: Bodies::NotOff,
        family,
    }
}

fn is_on(derived: &Derived, family: Family, rule: &Rule) -> bool
    ensures { result ≡ test.is_on (is_derived derived.now) family rule.now }
{
    rule.body
        .as_slice()
        .iter()
        .all(|b| derived.has(true, family, b))
}

fn is_off(derived: &Derived, family: Family, rule: &Rule) -> bool
    ensures { result ≡ test.is_off (is_derived derived.now) family rule.now }
{
    rule.body
        .as_slice()
        .iter()
        .any(|b| derived.has(false, family, b))
}

fn has_kind(kinds: Kinds, kind: Kind) -> bool
    ensures { result ≡ has_kind kinds kind }
{
    match kinds {
        Kinds::All => true,
        Kinds::Supporting => kind != Kind::Defeater,
        Kinds::Strict => kind == Kind::Strict,
    }
}

fn has_body(derived: &Derived, band: Band, rule: &Rule) -> bool
    ensures { result ≡ has_body (is_derived derived.now) band.bodies band.family rule.now }
{
    match band.bodies {
        Bodies::On => is_on(derived, band.family, rule),
        Bodies::NotOff => !is_off(derived, band.family, rule),
    }
}

/// Whether a rule is in a band.
pub fn is_in(derived: &Derived, band: Band, rule: &Rule) -> bool
    ensures { result ≡ is_in (is_derived derived.now) band rule.now }
{
    has_kind(band.kinds, rule.kind) && has_body(derived, band, rule)
}
