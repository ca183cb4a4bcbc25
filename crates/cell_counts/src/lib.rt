//! Cells under numbers, and how many pending ticks they have of each time and priority.
#![tactic(auto)]

mod cells;

pub use cells::{Cells, NOTHING};
