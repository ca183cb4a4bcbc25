//! The blocks that a build may hold, and the texts of their states.
#![tactic(auto)]

mod facts;
mod names;
mod properties;
mod reading;
mod writing;

pub use facts::{is_solid, opposite, slots};
pub use reading::parse_state;
pub use writing::push_state;

/// One of the six sides of a block. North is towards lower z, west towards lower x.
#[derive(Clone, Copy, Debug, PartialEq, Eq)]
pub enum Side {
    Down,
    Up,
    North,
    South,
    West,
    East,
}

/// What a lever or button hangs on: the block below, the block opposite its facing, or the block
/// above.
#[derive(Clone, Copy, Debug, PartialEq, Eq)]
pub enum Face {
    Floor,
    Wall,
    Ceiling,
}

/// How a wire was stored to connect towards a side.
#[derive(Clone, Copy, Debug, PartialEq, Eq)]
pub enum WireSide {
    Absent,
    Side,
    Up,
}

/// Which half of its place a slab fills.
#[derive(Clone, Copy, Debug, PartialEq, Eq)]
pub enum SlabHalf {
    Top,
    Bottom,
    Double,
}

/// A block as plain data. A `name` is a number of the list of names.
///
/// A facing is north, south, west or east.
#[derive(Clone, Copy, Debug, PartialEq, Eq)]
pub enum Block {
    Air,
    /// A block without a state of its own.
    Inert {
        name: u16,
    },
    Slab {
        name: u16,
        half: SlabHalf,
    },
    /// The power is from 0 to 15, as it was stored.
    Wire {
        north: WireSide,
        east: WireSide,
        south: WireSide,
        west: WireSide,
        power: u8,
    },
    Torch {
        lit: bool,
    },
    WallTorch {
        facing: Side,
        lit: bool,
    },
    /// The delay is from 1 to 4.
    Repeater {
        delay: u8,
        facing: Side,
        powered: bool,
    },
    Comparator {
        facing: Side,
        subtract: bool,
    },
    Lever {
        face: Face,
        facing: Side,
        powered: bool,
    },
    Button {
        name: u16,
        face: Face,
        facing: Side,
        powered: bool,
    },
    Plate {
        name: u16,
        powered: bool,
    },
    RedstoneBlock,
    Lamp {
        lit: bool,
    },
    Trapdoor {
        facing: Side,
        top: bool,
        powered: bool,
    },
    Container {
        name: u16,
    },
    /// The level is from 0 to 8.
    Composter {
        level: u8,
    },
    /// The level is from 0 to 3, and from 1 with water.
    Cauldron {
        water: bool,
        level: u8,
    },
    /// From 0 to 6 bites are taken.
    Cake {
        bites: u8,
    },
    /// A plate that weighs what stands on it. The power is from 0 to 15.
    Weighted {
        name: u16,
        power: u8,
    },
    Note {
        powered: bool,
    },
}
