//! The whole program over its words, its files and its two sinks.
#![tactic(auto)]

mod commands;
mod form;
mod status;
mod top;

pub use compiler::{Keep, compile_build, raw_graph};
pub use player::{PlayRefusal, play, play_ordered};
pub use status::Status;
pub use top::redpile;
