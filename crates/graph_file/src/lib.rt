//! Graph files: a graph as JSON, and the graph that JSON means.
#![tactic(auto)]

mod entries;
pub mod laws;
mod placed;
mod ranges;
mod reading;
mod targets;
mod writing;

pub use placed::PlacedTargets;
pub use reading::{from_bytes, from_value};
pub use targets::GraphTargets;
pub use writing::{to_text, to_value};
