//! Tests of blocks: their texts and values, builds, how wires join, and what blocks give and read.
#![tactic(auto)]

#[cfg(test)]
mod build_tests;
#[cfg(test)]
mod every_name;
#[cfg(test)]
mod other_value_tests;
#[cfg(test)]
mod power_tests;
#[cfg(test)]
mod shape_tests;
#[cfg(test)]
mod state_tests;
#[cfg(test)]
mod text_tests;
#[cfg(test)]
mod value_tests;
