//! Builds whose views are proved, one after the other.
#![tactic(auto)]

pub mod laws;
