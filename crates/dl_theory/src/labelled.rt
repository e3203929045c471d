//! Pairs and the labels of rules: which are there, which is missing, and at which places they stand.

ghost use Rattle.std.specs.Prelude.{◌≡◌, All, IfOk, IfSome, IfNone, length, map, take};
ghost use Rattle.dl_theory.specs.Edits.{AreThere, IsFront, IsMissing};
ghost use Rattle.dl_theory.specs.Pairs.{named, IsWithin, IsNumberOf};

use crate::edit::EditRefusal;
use crate::labels::{holds_label, place_of};
use crate::rule::Pair;
use dl_lit::{Memory, Name, NameSet};
use dl_sup::Link;
use std::alloc::Global;

/// The places of the labels of the pairs before the first that misses one, and what that one misses.
pub(crate) fn labelled_front(
    alloc: Global,
    labels: &NameSet<Name>,
    pairs: &[Pair],
) -> Result<(Vec<Link>, Option<EditRefusal>), Memory>
    ensures front { IfOk result (λ r. IsFront labels.now.keys pairs.now (length r.0.items) r.1) }
    ensures within { IfOk result (λ r. All (IsWithin labels.now.keys) r.0.items) }
    ensures named { IfOk result (λ r. map (named labels.now.keys) r.0.items ≡ take (length r.0.items) pairs.now) }
{
    let mut links = Vec::with_capacity(alloc, pairs.len())?;
    for pair in pairs {
        match link_of(labels, pair) {
            None => return Ok((links, Some(missing_label(labels, pair)?))),
            Some(link) => links.push(link)?,
        }
    }
    Ok((links, None))
}

/// The places of both labels of a pair, if both are there.
pub(crate) fn link_of(labels: &NameSet<Name>, pair: &Pair) -> Option<Link>
    ensures number { IfSome result (λ l. IsNumberOf labels.now.keys l pair.now) }
    ensures absent { IfNone result (¬ AreThere labels.now.keys pair.now) }
{
    match place_of(labels, &pair.upper) {
        None => None,
        Some(upper) => match place_of(labels, &pair.lower) {
            None => None,
            Some(lower) => Some(Link { upper, lower }),
        },
    }
}

fn missing_label(labels: &NameSet<Name>, pair: &Pair) -> Result<EditRefusal, Memory>
    requires { ¬ AreThere labels.now.keys pair.now }
    ensures { IfOk result (IsMissing labels.now.keys pair.now) }
{
    if holds_label(labels, &pair.upper) {
        return Ok(EditRefusal::NoLabel(pair.lower.copy()?));
    }
    Ok(EditRefusal::NoLabel(pair.upper.copy()?))
}

/// The places of the labels of pairs, all of which are there.
pub(crate) fn links_of(
    alloc: Global,
    labels: &NameSet<Name>,
    pairs: &[Pair],
) -> Result<Vec<Link>, Memory>
    requires { All (AreThere labels.now.keys) pairs.now }
    ensures within { IfOk result (λ links. All (IsWithin labels.now.keys) links.items) }
    ensures named { IfOk result (λ links. pairs.now ≡ map (named labels.now.keys) links.items) }
{
    let (links, missing) = labelled_front(alloc, labels, pairs)?;
    match missing {
        None => Ok(links),
        Some(_) => unreachable!(),
    }
}

/// The pairs of labels that stand at places.
pub(crate) fn pairs_of(alloc: Global, labels: &[Name], links: &[Link]) -> Result<Vec<Pair>, Memory>
    requires { All (IsWithin labels.now) links.now }
    ensures { IfOk result (λ pairs. pairs.items ≡ map (named labels.now) links.now) }
{
    let mut pairs = Vec::with_capacity(alloc, links.len())?;
    for link in links {
        let upper = labels[link.upper].copy()?;
        let lower = labels[link.lower].copy()?;
        pairs.push(Pair { upper, lower })?;
    }
    Ok(pairs)
}
