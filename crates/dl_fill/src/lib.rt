//! Filling in what follows, by counters and one queue.
//!
//! A family is a table of wires between nodes, and one engine that knows nothing of logic runs them all. A node is of a kind, at
//! the place of a literal or of a rule: kind `k` at place `i` is the number `i * width + k`. A wire leads from each node of one
//! kind to the nodes of another kind where a link of the graph leads. A node has a gate, which says whether it waits for all of
//! its inputs or for one of them, or fires at once or never. Each node is popped at most once and each edge is walked once.
//! A node reads only the part of the wires in which those of its kind stand (`spans.rt`).
//!
//! A fill costs what its region touches: the literals of the region, the rules for and against them, and their edges. Only these
//! nodes begin; a body literal outside the region is decided and read from its mark, so it is no input. The counters are clean
//! before a fill and after it.
//!
//! What a family brings is `FamilyGates`: its gates, a table of its wires, with kinds of literals before kinds of rules, and a proof
//! that exactly what follows has fired after a run. `fill` fills the families of such a table, in a `FillRoom`: it runs the counters
//! (`solve`), sets the marks whose nodes have fired, and leaves the counters clean; `fill_once` lets go of them instead. `attack_fails`, `attack_holds`, `gate_of_plus`
//! and `gate_of_minus` are the gates of families in which attackers can be answered, `gate_of_some` and `gate_of_each` those of
//! families in which rules alone bear on a literal.
//!
//! `prune` goes back along nodes in an order in which each is passed by those before it, as those of a queue are, and keeps the
//! ones on which wanted ones rest. `Basis` says what the gates of a literal's kinds read of the definite family.
//!
//! The lemmas for that proof, over any family `f` and the family `against` that its attackers are judged by:
//!
//! - `proofs/Exact.antt`: `fired_means` (what has fired has its meaning, if each gate keeps meanings), `fires` (a node that is
//!   touched and whose gate is passed has fired), `literal_touched`, `rule_touched`, `touched_literal`, `names_closed`.
//! - `proofs/Touching.antt`: `supports_touched`, `opposes_touched` (which rules are touched).
//! - `proofs/Solving.antt`: `run_idle` (what is left of the counters).
//! - `proofs/Gating.antt`: for each kind of node a lemma `.._sound` from the nodes below to its meaning, and a lemma
//!   `.._passes` back: `on`, `off`, `supported`, `unsupported`, `answered`, `unanswered`, and `some`, `each` over the rules of
//!   any listing. `answered` and `unanswered` are over any rivals of a rule that a link leads from: those that defend their head
//!   against it, or those that counter it. The meanings are in `specs/Meanings.antt`.
//! - `proofs/Concluding.antt`: `plus_sound`, `minus_sound`, `plus_passes`, `minus_passes`, for the literals' own tags.
//! - `proofs/Ruled.antt`: `concluded_sound`, `refuted_sound`, `concluded_passes`, `refuted_passes`, for literals that wait for
//!   one rule, or for each.
//! - `proofs/Solved.antt`: what is got where a family is filled (`Got`, `follows`, `fired`), and `solved`: exactly what follows
//!   has fired, where what meets its condition fires. `proofs/Tables.antt`: `table_tested`, by a test of the wires.
//! - `proofs/Sound.antt`: `sound`, of a table of which a family shows (`Shows`) that each gate keeps what its nodes mean, and that
//!   the node of a literal fires that meets its condition.
//! - `proofs/InOrder.antt`: `run_ordered` (a queue after a run is in such an order). `proofs/Derived.antt`: `IsFamily` (what is asked
//!   of a family), and `read_derives`: nodes in such an order, read as tagged literals, are a derivation.
//! - `proofs/Links.antt`: what the rows of a graph list (`backs_listing`, `proves_listing`, `opposes_listing`,
//!   `defends_listing`, `counters_listing`), and `links_turned`.
//! - `proofs/Written.antt`: `exact_of_right` and `exact_of_ready` (what gates read), `written_right` (the marks of a family that was
//!   written). `proofs/Families.antt`: `families_filled` (of all families of a table).
//!
//! `crates/dl_block/proofs/Block.antt` puts them together for one family.
#![tactic(auto)]

mod attack;
mod backward;
mod basis;
mod cells;
mod counters;
mod family;
mod filling;
mod gate;
mod needs;
mod parts;
mod queue;
mod room;
mod spans;
mod touch;
mod whole_run;
mod wire;
mod write;

pub use attack::{
    attack_fails, attack_holds, gate_of_each, gate_of_minus, gate_of_off, gate_of_on, gate_of_plus,
    gate_of_some, is_inside, outside_is_off, outside_is_on,
};
pub use backward::prune;
pub use basis::Basis;
pub use counters::Counters;
pub use family::FamilyGates;
pub use filling::{fill, fill_once};
pub use gate::{begin, inputs_asked};
pub use needs::{Need, Needs};
pub use parts::{Parts, make_parts};
pub use queue::run;
pub use room::FillRoom;
pub use whole_run::{Gates, solve};
pub use wire::{Gate, Wire};
