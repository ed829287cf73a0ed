//! Tables: rows of values in order, shared in runs, each table with the number of its predicate or
//! function.
#![tactic(auto)]

mod edits;
mod flat;
mod kept;
mod named;
mod row_order;
mod row_search;
mod rows;
mod runs;
mod same_row;
mod second;
mod second_made;
mod shared;
mod table;

pub use kept::keep_second_orders;
pub use named::{Named, find_table, share};
pub use row_order::{order_of, order_of_values};
pub use rows::{Rows, code_of_row, share_rows};
pub use runs::{Runs, find_row};
pub use same_row::is_same_row;
pub use second::Second;
pub use second_made::in_order;
pub use table::{Place, PlaceRow, PlaceRows};
