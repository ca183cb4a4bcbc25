//! Builds and scripts from a number, to measure with.
#![tactic(auto)]

pub mod laws;
mod made;
#[cfg(test)]
mod tests;
mod unit;

pub use made::make;
