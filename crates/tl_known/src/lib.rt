//! Worlds by numbers, equal ones once: a world that changes make is found without making it.
#![tactic(auto)]

mod is_after;
mod mark;
mod marks;
mod named_facts;
mod places_beside;
mod rows_beside;
mod same_number;
mod table_name;
mod table_numbers;
mod tables_beside;
mod world_tables;
mod worlds;

pub use worlds::Worlds;
