//! A build that runs again as it is told: its state after the start and after each click, and in
//! each tick after each place that is said to fire, if it may.
#![tactic(auto)]

mod attend;
mod events;
mod near;
mod replay;
mod sight;
mod stored;
mod things;
mod wires;

pub use events::Unlawful;
pub use replay::Replay;
