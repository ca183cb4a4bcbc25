//! A build that runs: its state after the start, after each click and after each tick.
#![tactic(auto)]

mod bases;
mod events;
mod outlets;
mod parts;
mod screen;
mod settle;
mod sight;
mod stored;
mod told;
mod valued;
mod world;

pub use world::World;
