//! How many links bring each strength to each node.
#![tactic(auto)]

mod counts;
mod tables;

pub use counts::Counts;
pub use tables::Tables;

#[cfg(test)]
mod tests;
