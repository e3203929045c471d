//! A list of pairs that is an order: for pairs that come many at once and stay.

ghost use Rattle.std.specs.Prelude.{◌≡◌, ◌++◌, OnOk, OnErr, IfErr, IfOk};
ghost use Rattle.dl_sup.specs.Adding.{AreAddable, IsLoadStop};
ghost use Rattle.dl_sup.specs.Extending.{place_of_stop};
ghost use Rattle.dl_sup.specs.Links.{IsOrder};

use crate::link::Link;
use crate::order::Order;
use crate::stop::LoadStop;
use crate::whole::is_order;
use dl_base::Memory;
use std::alloc::Global;

/// Adds pairs behind an order as adding them one by one, up to the first that is refused: `There` where a pair is in the list by then,
/// `Cycle` where it is not and would close one, `Memory` with nothing added.
pub fn extend_order(links: &mut Vec<Link>, more: &[Link]) -> Result<(), LoadStop>
    requires { IsOrder links.old.items }
    ensures accepted { OnOk result (AreAddable links.old.items more.now) }
    ensures added { OnOk result (links.new.items ≡ links.old.items ++ more.now) }
    ensures stopped { IfErr result (IsLoadStop links.old.items links.new.items more.now) }
{
    let alloc = *links.allocator();
    let all = joined(alloc, links.as_slice(), more)?;
    // Most lists are orders, and seen to be. Only another one needs the tables that find what is wrong.
    if !is_order(alloc, all.as_slice())? {
        add_front(links, more)?;
    }
    *links = all;
    Ok(())
}

fn joined(alloc: Global, links: &[Link], more: &[Link]) -> Result<Vec<Link>, Memory>
    ensures { IfOk result (λ all. all.items ≡ links.now ++ more.now) }
{
    let mut all = Vec::with_capacity(alloc, links.len() + more.len())?;
    all.extend_from_slice(links)?;
    all.extend_from_slice(more)?;
    Ok(all)
}

/// Adds the pairs before the first that is refused. Where none is, the list stays as it is.
fn add_front(links: &mut Vec<Link>, more: &[Link]) -> Result<(), LoadStop>
    requires { IsOrder links.old.items }
    ensures accepted { OnOk result (AreAddable links.old.items more.now) }
    ensures kept { OnOk result (links.new.items ≡ links.old.items) }
    ensures stopped { IfErr result (IsLoadStop links.old.items links.new.items more.now) }
{
    let mut order = load(*links.allocator(), links.as_slice())?;
    match order.add_all(more) {
        Ok(()) => Ok(()),
        Err(stop) => Err(settle(links, &order, more, stop)),
    }
}

/// The pairs of an order, none of which is refused.
fn load(alloc: Global, links: &[Link]) -> Result<Order, Memory>
    requires { IsOrder links.now }
    ensures { IfOk result (λ order. order ≡ links.now) }
{
    let mut order = Order::make(alloc);
    match order.add_all(links) {
        Ok(()) => Ok(order),
        Err(stop) => match refused_at(&stop) {
            None => Err(Memory),
            Some(_) => unreachable!(),
        },
    }
}

/// Puts the pairs before a refused one behind a list, and says why no more were added.
fn settle(links: &mut Vec<Link>, order: &Order, more: &[Link], stop: LoadStop) -> LoadStop
    requires { IsLoadStop links.old.items order.now more.now stop }
    ensures { IsLoadStop links.old.items links.new.items more.now result }
{
    let at = match refused_at(&stop) {
        None => return stop,
        Some(at) => at,
    };
    match joined(*links.allocator(), links.as_slice(), &more[..at]) {
        Err(_) => LoadStop::Memory,
        Ok(front) => {
            *links = front;
            stop
        }
    }
}

/// The place of a refused pair.
fn refused_at(stop: &LoadStop) -> Option<usize>
    ensures { result ≡ place_of_stop stop.now }
{
    match stop {
        LoadStop::There { at } => Some(*at),
        LoadStop::Cycle { at, .. } => Some(*at),
        LoadStop::Memory => None,
    }
}
