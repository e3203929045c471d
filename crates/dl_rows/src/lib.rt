//! Rows of numbers, tables of rows and sets of numbers: what a theory by numbers is kept in. Nothing here knows of a theory.
//!
//! Rules and literals have numbers, and what is asked of them is mostly a short list of numbers at a number: `RowTable`. Such lists
//! grow one by one, each with room of its own, or stand packed one behind another where all counts are known beforehand. What is
//! frozen is shared with each copy, page by page. A contract sees a table as a list of lists (`specs/Tables.antt`), and says how much room
//! is left where a later call must not fail. `Row` is one short list, and `Region` a set of numbers below a bound. Begin with `lists.rt`,
//! which says what any table of lists promises.
#![tactic(auto)]

mod lists;
mod open_rows;
mod packed_rows;
mod region;
mod row;
mod row_table;

pub use lists::Lists;
pub use region::Region;
pub use row::Row;
pub use row_table::RowTable;
