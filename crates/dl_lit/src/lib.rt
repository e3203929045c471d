//! Names, literals and tagged literals.
#![tactic(auto)]

mod borrowed;
mod literal;
mod name;
mod names;
mod near;
mod text;

pub use borrowed::LiteralRef;
pub use dl_base::Memory;
pub use literal::{Family, Literal, Tag, Tagged, hash_atom};
pub use name::{Name, NameStop, begins_name, continues_name};
pub use names::Names;
pub use near::{NameSet, NearHasher, name_set};
