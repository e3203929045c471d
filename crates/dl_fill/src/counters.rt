//! Counters and the queue.

ghost use Rattle.std.specs.Prelude.{◌≡◌, ◌<◌, ◌≤◌, ◌+◌, ◌-◌, ◌^◌, ◌==◌, ◌∷◌, ◌++◌, [], length, slice_index, slice_set, IfOk, OnOk, OnErr, replicate, ◌↔◌, ◌⊎◌, ℕ, Bool, false, slice_index_or, IsTrue, if◌then◌else◌};
ghost use Rattle.std.specs.Prelude.{take};
ghost use Rattle.std.specs.List.{fold};
ghost use Rattle.std.specs.Vec.{vec_capacity};
ghost use Rattle.dl_graph.specs.Counting.{times};
ghost use Rattle.dl_fill.specs.Cells.{counted_down, come_down};
ghost use Rattle.dl_fill.specs.Counters.{hit, chosen, waiting, AreNodes, IsQueue};

use crate::cells::Cells;
use dl_base::Memory;
use std::alloc::Global;
use std::marker::Model;

/// No more nodes than numbers of 31 bits tell apart: a word of the queue has room for each.
const MOST_NODES: usize = 0x8000_0000;

/// One node of so many in the queue makes it crowded.
const CROWD: usize = 16;

/// So many hits are made at once: more than a processor can wait for at a time.
pub(crate) const BLOCK: usize = 64;

/// How many hits each node still waits for, and the nodes that wait no more, in order. A node takes four bytes, and four more of a
/// queue whose room is taken before, and touched only as far as nodes fire.
pub struct Counters {
    /// By node, whether it stands in the queue, and how many hits it still waits for: none where it stands there.
    cells: Cells,
    /// The nodes of the queue, in order. There is always room for one more.
    queue: Vec<u32>,
}

impl Drop for Counters {
    fn drop(self) {
        let Counters { cells: _, queue: _ } = self;
    }
}

impl Model for Counters {
    ghost use Rattle.dl_fill.specs.Counters.{CounterLists, IsKept};
    ghost use Rattle.std.specs.Vec.{vec_capacity};

    ghost Value = { CounterLists };

    ghost view = { λ w. record { need = w.cells.numbers; queue = w.queue.items } };

    ghost invariant = { λ w. IsKept w.cells.flags w.cells.numbers w.queue.items (vec_capacity w.queue) };
}

impl Counters {
    /// No nodes.
    pub fn make(alloc: Global) -> Counters
        ensures need { result.need ≡ [] }
        ensures queue { result.queue ≡ [] }
    {
        Counters {
            cells: Cells::make(alloc),
            queue: Vec::new(alloc),
        }
    }

    /// Room for `size` nodes, none of which waits. `Memory` leaves the counters as they were; it comes too where the nodes
    /// are more than numbers of 31 bits tell.
    pub fn renew(&mut self, size: usize) -> Result<(), Memory>
        ensures need { OnOk result (self.new.need ≡ replicate size 0) }
        ensures queue { OnOk result (self.new.queue ≡ []) }
        ensures kept { OnErr result (self.new ≡ self.old) }
    {
        if size > MOST_NODES {
            return Err(Memory);
        }
        let alloc = self.cells.alloc();
        let queue = Vec::with_capacity(alloc, size + 1)?;
        let cells = Cells::of_len(alloc, size)?;
        *self = Counters { cells, queue };
        Ok(())
    }

    /// For how many nodes there is room.
    pub fn size(&self) -> usize
        ensures size { result ≡ length self.now.need }
        ensures few { length self.now.queue + waiting self.now.need ≤ length self.now.need }
    {
        self.cells.len()
    }

    /// How many nodes wait no more.
    pub fn len(&self) -> usize
        ensures len { result ≡ length self.now.queue }
        ensures few { result ≤ length self.now.need }
    {
        self.queue.len()
    }

    /// The node that stands at a place of the queue.
    #[inline(always)]
    pub fn node(&self, at: usize) -> usize
        requires { at < length self.now.queue }
        ensures node { result ≡ slice_index self.now.queue at }
        ensures within { result < length self.now.need }
    {
        self.queue[at] as usize
    }

    /// The nodes of the queue, in order. `Memory` where there is none for the list.
    pub fn nodes(&self, alloc: Global) -> Result<Vec<usize>, Memory>
        ensures { IfOk result (λ nodes. nodes.items ≡ self.now.queue) }
    {
        listed(alloc, self.queue.as_slice())
    }

    /// Nothing stands in the queue any more. It costs no more than the queue is long.
    pub fn drain(&mut self)
        ensures need { self.new.need ≡ self.old.need }
        ensures queue { self.new.queue ≡ [] }
    {
        wipe(&mut self.cells, self.queue.as_slice());
        self.queue.clear();
    }

    /// Whether so many nodes have fired that clearing all nodes costs less than going along the queue.
    pub(crate) fn is_crowded(&self) -> bool {
        self.queue.len() >= self.cells.len() / CROWD
    }

    /// No node waits, and none stands in the queue. It costs a word of memory for each node there is room for.
    pub fn clear(&mut self)
        ensures need { self.new.need ≡ replicate (length self.old.need) 0 }
        ensures queue { self.new.queue ≡ [] }
    {
        self.cells.clear();
        self.queue.clear();
    }

    /// A node as the queue has it.
    #[inline(always)]
    pub(crate) fn word(&self, node: usize) -> u32
        requires { node < length self.now.need }
        ensures { result ≡ node }
    {
        // there are no more cells than numbers of 31 bits tell apart
        let _size = self.cells.len();
        node as u32
    }

    /// One hit on each of these nodes, in order.
    // Not inlined: each wire of a run has a place for the call, which comes once a block.
    #[inline(never)]
    pub(crate) fn hit_all(&mut self, nodes: &[u32])
        requires few { length nodes.now ≤ 64 }
        requires inside { AreNodes self.old nodes.now }
        ensures { self.new ≡ fold hit self.old nodes.now }
    {
        match nodes {
            [node] => self.hit_one(*node),
            _ => self.hit_block(nodes),
        }
    }

    /// One hit on a node.
    // where each node leads to one other, as along a chain, there is never more than this one to make
    #[inline(always)]
    fn hit_one(&mut self, node: u32)
        requires { node < length self.old.need }
        ensures { self.new ≡ hit self.old node }
    {
        if self.cells.hit(node as usize) {
            self.queue.push_reserved(node);
        }
    }

    /// One hit on each of some nodes, in order. First all their cells count down, and then all pushes are made: where a push is written
    /// hangs on what the cells before it say, so that hits that did both would wait for one cell after the other. The looks at the cells
    /// hang on nothing, and their waits overlap.
    #[inline(always)]
    fn hit_block(&mut self, nodes: &[u32])
        requires few { length nodes.now ≤ 64 }
        requires inside { AreNodes self.old nodes.now }
        ensures { self.new ≡ fold hit self.old nodes.now }
    {
        let mut fires = [false; BLOCK];
        count_down(&mut self.cells, nodes, &mut fires);
        push_chosen(&mut self.queue, nodes, &fires);
    }

    /// Whether the node stands in the queue.
    pub fn has(&self, node: usize) -> bool
        requires { node < length self.now.need }
        ensures { IsTrue result ↔ (0 < times node self.now.queue) }
    {
        self.cells.flag(node)
    }

    /// The node waits for that many hits.
    #[inline(always)]
    pub fn wait(&mut self, node: usize, hits: usize)
        requires node { node < length self.old.need }
        requires few { hits < 2 ^ 31 }
        requires fresh { (hits ≡ 0) ⊎ (times node self.old.queue ≡ 0) }
        requires room { (hits ≡ 0) ⊎ (length self.old.queue + waiting self.old.need < length self.old.need) }
        ensures { self.new ≡ record { need = slice_set self.old.need node hits; queue = self.old.queue } }
    {
        if !self.cells.flag(node) {
            self.cells.put(node, hits);
        }
    }

    /// The node, which waits for nothing, goes into the queue at once.
    #[inline(always)]
    pub fn give(&mut self, node: usize)
        requires node { node < length self.old.need }
        requires idle { slice_index self.old.need node ≡ 0 }
        requires fresh { times node self.old.queue ≡ 0 }
        requires room { length self.old.queue + waiting self.old.need < length self.old.need }
        ensures { self.new ≡ record { need = self.old.need; queue = self.old.queue ++ node ∷ [] } }
    {
        self.queue.push_reserved(node as u32);
        self.cells.fire(node);
    }
}

/// The nodes of a queue, in order.
fn listed(alloc: Global, queue: &[u32]) -> Result<Vec<usize>, Memory>
    ensures { IfOk result (λ nodes. nodes.items ≡ queue.now) }
{
    let mut nodes = Vec::with_capacity(alloc, queue.len())?;
    for node in queue {
        nodes.push(*node as usize)?;
    }
    Ok(nodes)
}

/// The nodes of a queue have fired no more.
fn wipe(cells: &mut Cells, queue: &[u32])
    requires { IsQueue cells.old.flags cells.old.numbers queue.now }
    ensures need { cells.new.numbers ≡ cells.old.numbers }
    ensures fired { IsQueue cells.new.flags cells.new.numbers [] }
{
    for node in queue {
        cells.wipe(*node as usize);
    }
}

/// The cells of some nodes count down, in order, and tell which nodes fire.
#[inline(always)]
fn count_down(cells: &mut Cells, nodes: &[u32], fires: &mut [bool; BLOCK])
    requires few { length nodes.now ≤ 64 }
    requires inside { (y : ℕ) → 0 < times y nodes.now → y < length cells.old.flags }
    ensures told { take (length nodes.now) fires.new ≡ come_down cells.old nodes.now }
    ensures lower { cells.new ≡ fold counted_down cells.old nodes.now }
{
    for at in 0..nodes.len() {
        fires[at] = cells.hit(nodes[at] as usize);
    }
}

/// The nodes that fire go behind a queue. Each node is put there in any case, and taken away again where it does not fire: a branch on
/// what its cell says would mostly be guessed wrong.
#[inline(always)]
fn push_chosen(queue: &mut Vec<u32>, nodes: &[u32], fires: &[bool; BLOCK])
    requires few { length nodes.now ≤ 64 }
    requires room { 0 < length nodes.now → length queue.old.items + length (chosen fires.now nodes.now) < vec_capacity queue.old }
    ensures items { queue.new.items ≡ queue.old.items ++ chosen fires.now nodes.now }
    ensures capacity { vec_capacity queue.new ≡ vec_capacity queue.old }
{
    for at in 0..nodes.len() {
        let len = queue.len();
        queue.push_reserved(nodes[at]);
        if !fires[at] {
            queue.truncate(len);
        }
    }
}
