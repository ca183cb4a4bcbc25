//! Rows of numbers, one behind another, and lists that are filled before they become such rows.
#![tactic(auto)]

mod lists;
mod rows;

pub use lists::{Lists, rows_from};
pub use rows::Rows;
