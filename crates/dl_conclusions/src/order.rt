//! The literals that a theory mentions, in order.

ghost use Rattle.std.specs.Prelude.{◌≡◌, ◌<◌, IfOk, All, length};
ghost use Rattle.std.specs.List.{flat_map};
ghost use Rattle.dl_conclusions.specs.Orders.{IsOrder};
ghost use Rattle.dl_conclusions.specs.Placing.{ArePlaced, pair_numbers};

use crate::placed::{Placed, prefix_of};
use dl_base::Memory;
use dl_graph::Graph;
use std::alloc::Global;

/// The positive literals that the theory mentions, in the order of their numbers. Of a literal and its complement exactly one is
/// positive, so each pair is listed once. The list borrows each literal, and copies none.
fn placed<'a>(alloc: Global, net: &Graph<'a>) -> Result<Vec<Placed<'a>>, Memory>
    ensures { IfOk result (λ list. ArePlaced net.now (length net.now.names) list.items) }
{
    let mut list = Vec::with_capacity(alloc, net.names() / 2)?;
    for number in 0..net.names() {
        let literal = net.literal(number);
        if literal.positive && net.lives(number) {
            let prefix = prefix_of(literal.atom);
            list.push(Placed {
                prefix,
                literal,
                number,
            })?;
        }
    }
    Ok(list)
}

/// The number of each of these literals, and after it that of its complement, which comes next in the order of literals.
fn numbers_of(alloc: Global, net: &Graph<'_>, list: &[Placed<'_>]) -> Result<Vec<usize>, Memory>
    requires { All (λ p. p.number < length net.now.names) list.now }
    ensures { IfOk result (λ numbers. numbers.items ≡ flat_map (pair_numbers net.now) list.now) }
{
    let mut numbers = Vec::with_capacity(alloc, list.len() * 2)?;
    for placed in list {
        numbers.extend_from_slice(&[placed.number, net.other(placed.number)])?;
    }
    Ok(numbers)
}

/// The numbers of the literals that the theory mentions, in the order of the literals. `Memory` where there is none for
/// them.
pub fn order_of(alloc: Global, net: &Graph<'_>) -> Result<Vec<usize>, Memory>
    ensures { IfOk result (λ order. IsOrder net.now order.items) }
{
    let mut list = placed(alloc, net)?;
    // Numbers stand for distinct literals, so nothing is listed twice.
    let _count = net.names();
    list.sort_unstable();
    numbers_of(alloc, net, list.as_slice())
}
