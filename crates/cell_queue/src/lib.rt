//! Cells under numbers, and their pending ticks in a queue.
#![tactic(auto)]

mod cells;

pub use cells::{Cells, NOTHING, Wait};

#[cfg(test)]
mod tests;
