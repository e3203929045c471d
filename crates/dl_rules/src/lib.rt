//! Rules by the numbers of their literals, and the lists that lead to them.
//!
//! A fill goes from a literal to the rules that have it as head or use it, and from a rule to those above and below it. `Index` holds
//! the rules with all of these lists while rules and pairs come and go, and promises that each list has exactly the numbers of its
//! rules. A rule's number never moves and is never given again. Memory for an edit is taken first, and the edit is then made without
//! any. `Lines` are the rules alone, `Entry` is one rule by itself, and `LinkCounts` says how much room a theory's pairs take. Begin
//! with `specs/Lines.antt`, which says what an index holds, and with `index.rt`.
#![tactic(auto)]

mod body;
mod enter;
mod entry;
mod index;
mod kinds;
mod leave;
mod lines;
mod link_counts;
mod rule_lists;
mod slot;

pub use body::BodyNumbers;
pub use entry::Entry;
pub use index::Index;
pub use lines::Lines;
pub use link_counts::LinkCounts;
pub use rule_lists::BLOCK;
