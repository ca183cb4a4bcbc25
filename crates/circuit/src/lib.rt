//! What redstone components do in time, wherever they stand: the rules of one
//! component as functions, and, for any circuit of them, the definitions of
//! states, events, runs and what a run shows. A build is such a circuit, with
//! places for keys, and so is a compiled graph, with numbers for keys.
#![tactic(auto)]

pub mod laws;
mod rules;

pub use rules::{
    asks, attended, attended_value, clicked, delay, fired, fired_value, fires_again, goal, locked,
    out, priority, takes,
};

/// A place in the world.
#[derive(Clone, Copy, PartialEq, Eq, Hash, Debug)]
pub struct Pos {
    pub x: i32,
    pub y: i32,
    pub z: i32,
}

/// A part of a circuit that holds a value, which is 0 or 1 (off or on) unless said otherwise.
#[derive(Clone, Copy, PartialEq, Eq, Debug)]
pub enum Component {
    Lever,
    /// Goes off after `delay` ticks, which is 10 or 15.
    Button { delay: u8 },
    Plate,
    /// A weighted plate. Its value is 0 to 15.
    Weighted,
    Torch,
    /// Follows its back after `delay` ticks, which is 1 to 4.
    Repeater { delay: u8 },
    /// Compares or subtracts. Its value is 0 to 15.
    Comparator { subtract: bool },
    Lamp,
    Trapdoor,
    /// A note block.
    Note,
    /// A wire that is looked at. Its value is always 0; a view shows the power that it reads.
    Wire,
}

/// What a user does at a place.
#[derive(Clone, Copy, PartialEq, Eq, Debug)]
pub enum Click {
    /// Toggles a lever, or presses a button.
    Use,
    /// Steps on a plate.
    Press,
    /// Steps off a plate or a weighted plate.
    Leave,
    /// Puts a weight of 1 to 15 on a weighted plate.
    Weigh { weight: u8 },
}

/// One act of a script.
#[derive(Clone, Copy, PartialEq, Eq, Debug)]
pub enum Act {
    Click { pos: Pos, click: Click },
    /// So many ticks pass, which may be none.
    Ticks { count: u32 },
}

/// One step of a run, after which there is one view: a click, or one tick.
#[derive(Clone, Copy, PartialEq, Eq, Debug)]
pub enum Step {
    Click { pos: Pos, click: Click },
    Tick,
}

/// The powers that a component reads, 0 to 15. A component without a back or a side reads 0 there.
#[derive(Clone, Copy, PartialEq, Eq, Debug)]
pub struct Readings {
    pub back: u8,
    pub side: u8,
}

/// What is held under a key: a value, and the time and priority of the pending tick.
/// `due` is 0 where no tick is pending, and `priority` is 0 then.
#[derive(Clone, Copy, PartialEq, Eq, Debug)]
pub struct Cell {
    pub value: u8,
    pub due: u64,
    pub priority: u8,
}
