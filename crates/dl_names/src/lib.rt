//! Literals by number, each beside its complement.
//!
//! A theory is worked on by the numbers of its literals, so each literal is sought once, when its line is read. `PairedNames` gives a
//! literal the next free even number and its complement the number behind it, or the other way round, by one look-up for both. It
//! promises that no two numbers stand for one literal, that a number never changes, and that numbers have 32 bits. Of a pair it keeps one
//! atom, in a set of pairs (`AtomPairs`), and lends each literal by its parts. Names that were copied have two such sets (`SharedPairs`): one
//! that does not change any more, which all copies share, and one of the pairs that came later. So each further copy costs what came since.
//! Begin with `atom_pairs.rt`, which says what a set promises, and `paired_names.rt`.
#![tactic(auto)]

mod atom;
mod atom_pairs;
mod paired_names;
mod shared_pairs;
mod stems;

pub use atom_pairs::AtomPairs;
pub use paired_names::{PairedNames, other};
