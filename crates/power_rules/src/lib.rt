//! The rules of redstone power: what the blocks of a build give and read, and what each component
//! is to do by it. With these rules a build is a circuit, the world, whose definition stands here.
//! No call takes memory.
#![tactic(auto)]

ghost use Rattle.std.specs.Prelude.{ℕ, ◌≡◌, ◌≤◌};
ghost use Rattle.circuit.specs.declared.Pos.{Pos as Place};

mod components;
pub mod laws;
mod power;

pub use circuit::Pos;
pub use components::{base, button_delay, component, faces_diode, goal, readings, stored_value};
pub use power::{
    back, direct_strength, far_strength, hung, locked, read_no_dust, read_power, side_power,
    strong, weak,
};

/// The levels that the rules go by, one at each place: what a component there gives, which of one
/// that is on is 15, the power of a wire, and 0 elsewhere.
///
/// A level is at most 15, and so are all powers. A lever, button, plate, torch or repeater whose
/// level isn't 0 counts as on, and gives 15.
pub trait Levels {
    ghost level_of: { Self → Place → ℕ };

    /// The level at a place, in the box or outside.
    fn level(&self, pos: Pos) -> u8
        ensures level { result ≡ level_of self.now pos }
        ensures small { result ≤ 15 };
}
