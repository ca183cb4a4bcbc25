//! The shape of redstone wires: to which sides they join, where they point, and which wires feed
//! them. All of it depends on the blocks of a build alone, and none of it takes memory.
#![tactic(auto)]

mod connections;
mod feeding;

pub use connections::{connection, is_wire, points, same_side, solid_at, wire_at};
pub use feeding::{Feeders, feeders_of};

/// How a wire is joined on one of its horizontal sides.
#[derive(Clone, Copy, PartialEq, Eq, Debug)]
pub enum Conn {
    /// Not at all.
    Absent,
    /// To its neighbour, or to the wire below it.
    Side,
    /// To the wire above its neighbour.
    Up,
}
