//! Small graphs that are found to be sound by looking at each node, for tests of `graph_machine`
//! beside a plain machine.
#![tactic(auto)]

mod good;

pub use good::is_good;

#[cfg(test)]
mod tests;
