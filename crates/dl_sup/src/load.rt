//! Pairs that are added at once.

ghost use Rattle.std.specs.Prelude.{◌≡◌, IfOk, IfSome, true, false};
ghost use Rattle.dl_sup.specs.Links.{IsOrder};
ghost use Rattle.dl_sup.specs.Loading.{IsLoaded, HasFront};

use crate::link::Link;
use crate::table::Table;
use crate::whole::is_order;
use dl_base::Memory;

/// The pairs of an order and more behind them, if a fast check sees that these are an order.
fn load(base: &Table, links: &[Link]) -> Result<Option<Table>, Memory>
    ensures { IfOk result (λ loaded. IfSome loaded (IsLoaded base.now links.now)) }
{
    let all = base.with(links)?;
    if !is_order(base.alloc(), all.as_slice())? {
        return Ok(None);
    }
    Ok(Some(Table::of(base.alloc(), all.as_slice())?))
}

/// Loads pairs into a table, if that gives an order.
fn try_load(base: &Table, best: &mut Table, links: &[Link]) -> Result<bool, Memory>
    requires { IsOrder base.now }
    ensures loaded { IfOk result (λ whole. whole ≡ true → IsLoaded base.now links.now best.new) }
    ensures kept { IfOk result (λ whole. whole ≡ false → best.new ≡ best.old) }
{
    match load(base, links)? {
        None => Ok(false),
        Some(table) => {
            *best = table;
            Ok(true)
        }
    }
}

/// Loads as many of the first pairs as give an order, and says how many: by halves, where not all of them do.
pub(crate) fn load_front(base: &Table, best: &mut Table, links: &[Link]) -> Result<usize, Memory>
    requires order { IsOrder base.now }
    requires same { best.old ≡ base.now }
    ensures { IfOk result (HasFront base.now links.now best.new) }
{
    if try_load(base, best, links)? {
        return Ok(links.len());
    }
    let mut low = 0usize;
    let mut high = links.len();
    while low + 1 < high {
        let middle = low + (high - low) / 2;
        if try_load(base, best, &links[..middle])? {
            low = middle;
        } else {
            high = middle;
        }
    }
    Ok(low)
}
