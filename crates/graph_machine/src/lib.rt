//! Plays a compiled graph.
#![tactic(auto)]

ghost use Rattle.std.specs.Prelude.{◌≡◌};

mod events;
mod fired;
mod headed;
mod links;
mod machine;
mod net;
mod outputs;
mod places;
mod screen;
mod steps;
mod wiring;

pub use build::ClickRefusal;
pub use cell_queue::Wait;
pub use fired::Fired;
pub use headed::outputs_of;
pub use machine::Machine;
pub use steps::Steps;
