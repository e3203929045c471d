//! Lists in pages that can be shared: what a draft and its editions keep in common.
//!
//! A `Paged` is one list. Its elements stand in pages of 64, and its pages in sections of 64; each page and each section is either the
//! list's own or shared with other lists. What is shared is never written: `own` takes a copy of the one page first, and of the pointers of
//! its section. `freeze` gives all up for sharing, and `share` then makes an equal list at the cost of a count for each section. A contract
//! sees the elements, which places may be written, and how many elements more go in without memory (`specs/Paged.antt`). Begin with
//! `paged.rt`; one level of pages is in `pages.rt`.
//!
//! A `Table` is such a list for whom most lists are never written once they are shared: it stands flat, as one `Vec`, until it is written
//! after a freeze, and in pages from then on.
#![tactic(auto)]

mod page;
mod paged;
mod pages;
mod table;

pub use paged::Paged;
pub use table::Table;
