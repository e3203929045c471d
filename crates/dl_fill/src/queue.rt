//! The run of the queue.

ghost use Rattle.std.specs.Prelude.{◌≡◌, ℕ, ◌+◌, ◌*◌, ◌<◌, ◌≤◌, [], length, slice_index, IfSome, OnSome, IfNone};
ghost use Rattle.std.specs.List.{fold};
ghost use Rattle.dl_graph.specs.Numbers.{next};
ghost use Rattle.dl_graph.specs.Counting.{times};
ghost use Rattle.dl_fill.specs.Counters.{hit, AreNodes};
ghost use Rattle.dl_fill.specs.Wires.{edges, through};
ghost use Rattle.dl_fill.specs.Runs.{IsRunOut};
ghost use Rattle.dl_fill.specs.Spans.{IsSpans};

use crate::counters::{BLOCK, Counters};
use crate::spans::Spans;
use crate::wire::Wire;
use arrayvec::ArrayVec;
use dl_graph::{Graph, Link};

/// The hits that wait to be made, in order: a node for each.
type Hits = ArrayVec<u32, BLOCK>;

/// Makes the hits that wait, so that none does.
#[inline(always)]
fn settle(counters: &mut Counters, hits: &mut Hits)
    requires { AreNodes counters.old hits.old.items }
    ensures made { counters.new ≡ fold hit counters.old hits.old.items }
    ensures none { hits.new.items ≡ [] }
{
    counters.hit_all(hits.as_slice());
    hits.clear();
}

/// One hit more waits. Those that fill a block are made before it.
#[inline(always)]
fn later(counters: &mut Counters, hits: &mut Hits, node: usize)
    requires waits { AreNodes counters.old hits.old.items }
    requires inside { node < length counters.old.need }
    ensures waits { AreNodes counters.new hits.new.items }
    ensures made { fold hit counters.new hits.new.items ≡ hit (fold hit counters.old hits.old.items) node }
{
    let word = counters.word(node);
    if hits.is_full() {
        settle(counters, hits);
    }
    hits.push(word);
}

/// The node at a place of the queue as it is once the hits that wait are made, or none where it does not reach that far. They are made
/// here only where it does not without them: what stands in it already stays.
#[inline(always)]
fn next_node(counters: &mut Counters, hits: &mut Hits, head: usize) -> Option<usize>
    requires { AreNodes counters.old hits.old.items }
    ensures waits { AreNodes counters.new hits.new.items }
    ensures same { fold hit counters.new hits.new.items ≡ fold hit counters.old hits.old.items }
    ensures node { IfSome result (λ node. node ≡ slice_index (fold hit counters.old hits.old.items).queue head) }
    ensures within { IfSome result (λ node. node < length counters.old.need) }
    ensures reached { OnSome result (head < length (fold hit counters.old hits.old.items).queue) }
    ensures few { OnSome result (head < length counters.old.need) }
    ensures made { IfNone result (counters.new ≡ fold hit counters.old hits.old.items) }
    ensures ends { IfNone result (length counters.new.queue ≤ head) }
{
    if head >= counters.len() {
        settle(counters, hits);
    }
    if head < counters.len() {
        Some(counters.node(head))
    } else {
        None
    }
}

/// One hit for each number to which the link leads.
// Inlined always, as all here: so the width of a family is a constant, and no node costs a division.
#[inline(always)]
fn follow(
    net: &Graph<'_>,
    width: usize,
    link: Link,
    from: usize,
    to: usize,
    counters: &mut Counters,
    hits: &mut Hits,
)
    requires waits { AreNodes counters.old hits.old.items }
    requires inside { AreNodes counters.old (through width to (next net.now link from)) }
    ensures waits { AreNodes counters.new hits.new.items }
    ensures made { fold hit counters.new hits.new.items ≡ fold hit (fold hit counters.old hits.old.items) (through width to (next net.now link from)) }
{
    let _size = counters.size();
    for at in 0..net.next_len(link, from) {
        let place = net.next(link, from, at);
        later(counters, hits, place * width + to);
    }
}

/// One hit for each number to which the link leads. Which link it is, is asked once, and not at each number.
#[inline(always)]
fn send(
    net: &Graph<'_>,
    width: usize,
    link: Link,
    from: usize,
    to: usize,
    counters: &mut Counters,
    hits: &mut Hits,
)
    requires waits { AreNodes counters.old hits.old.items }
    requires inside { AreNodes counters.old (through width to (next net.now link from)) }
    ensures waits { AreNodes counters.new hits.new.items }
    ensures made { fold hit counters.new hits.new.items ≡ fold hit (fold hit counters.old hits.old.items) (through width to (next net.now link from)) }
{
    match link {
        Link::Same => follow(net, width, Link::Same, from, to, counters, hits),
        Link::Uses => follow(net, width, Link::Uses, from, to, counters, hits),
        Link::Backs => follow(net, width, Link::Backs, from, to, counters, hits),
        Link::Proves => follow(net, width, Link::Proves, from, to, counters, hits),
        Link::Opposes => follow(net, width, Link::Opposes, from, to, counters, hits),
        Link::Defends => follow(net, width, Link::Defends, from, to, counters, hits),
        Link::Counters => follow(net, width, Link::Counters, from, to, counters, hits),
    }
}

/// The hits that some wires make of a node that has fired.
#[inline(always)]
fn fire(
    net: &Graph<'_>,
    width: usize,
    wires: &[Wire],
    node: usize,
    counters: &mut Counters,
    hits: &mut Hits,
)
    requires width { 0 < width }
    requires waits { AreNodes counters.old hits.old.items }
    requires inside { AreNodes counters.old (edges net.now width wires.now node) }
    ensures waits { AreNodes counters.new hits.new.items }
    ensures made { fold hit counters.new hits.new.items ≡ fold hit (fold hit counters.old hits.old.items) (edges net.now width wires.now node) }
{
    for w in wires {
        if w.from == node % width {
            send(net, width, w.link, node / width, w.to, counters, hits);
        }
    }
}

/// The hits of a node that has fired. Of the wires those alone are read that lead from its kind.
#[inline(always)]
fn fire_kind(
    net: &Graph<'_>,
    width: usize,
    wires: &[Wire],
    spans: &Spans,
    node: usize,
    counters: &mut Counters,
    hits: &mut Hits,
)
    requires width { 0 < width }
    requires spans { IsSpans (λ w. w.from) wires.now (length wires.now) spans.now }
    requires waits { AreNodes counters.old hits.old.items }
    requires inside { AreNodes counters.old (edges net.now width wires.now node) }
    ensures waits { AreNodes counters.new hits.new.items }
    ensures made { fold hit counters.new hits.new.items ≡ fold hit (fold hit counters.old hits.old.items) (edges net.now width wires.now node) }
{
    let part = spans.part(wires, node % width);
    fire(net, width, part, node, counters, hits);
}

/// Fires the nodes of the queue until no more come.
#[inline(always)]
pub fn run(net: &Graph<'_>, width: usize, wires: &[Wire], counters: &mut Counters)
    requires width { 0 < width }
    requires inside { (x y : ℕ) → x < length counters.old.need → 0 < times y (edges net.now width wires.now x) → y < length counters.old.need }
    ensures { IsRunOut (edges net.now width wires.now) counters.old counters.new }
{
    let _size = counters.size();
    let spans = Spans::from(wires);
    let mut hits = Hits::new();
    let mut head = 0;
    while let Some(node) = next_node(counters, &mut hits, head) {
        fire_kind(net, width, wires, &spans, node, counters, &mut hits);
        head += 1;
    }
}
