//! What the graph files of builds show.
#![tactic(auto)]

pub mod laws;
