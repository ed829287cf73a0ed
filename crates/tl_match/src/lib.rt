//! Patterns of facts and of places, and the tuples that make them a row of a table.
#![tactic(auto)]

mod after;
mod by_second;
mod first;
mod first_place;
mod front;
pub mod laws;
mod next;
mod pattern;
mod row_match;

pub use after::{rows_before, rows_before_near};
pub use by_second::{is_in_second_order, put_next_in_table};
pub use first::put_first;
pub use first_place::places_before;
pub use front::{are_in_turn, order_of_front};
pub use next::put_next_in_places;
pub use pattern::{MOST_PARTS, Match, Part, Pattern};
pub use row_match::{match_place, match_row};
