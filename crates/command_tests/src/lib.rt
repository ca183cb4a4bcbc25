//! Tests of the whole program: each command over files and sinks in memory.
#![tactic(auto)]

#[cfg(test)]
mod check_tests;
#[cfg(test)]
mod fault_tests;
#[cfg(test)]
mod file_tests;
#[cfg(test)]
mod first_tests;
#[cfg(test)]
mod graph_tests;
#[cfg(test)]
mod order_tests;
#[cfg(test)]
mod play_tests;
#[cfg(test)]
mod row_tests;
#[cfg(test)]
mod save_tests;
#[cfg(test)]
mod support;
#[cfg(test)]
mod word_tests;
