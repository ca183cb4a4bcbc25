//! A build: a box with a block in each cell, and the ticks that are pending in it. And which places of a build are looked at.
#![tactic(auto)]

mod build;
mod marks;
mod shown;
mod sides;
mod ticks;

pub use build::{Build, is_ticking};
pub use circuit::{Click, Pos};
pub use marks::Marks;
pub use shown::outputs;
pub use sides::beside;
use thiserror::Error;

/// A tick that is pending at a place: `due` is in how many ticks it comes, 1 to 15, and `priority` is 0 to 3, 0 first.
#[derive(Clone, Copy, PartialEq, Eq, Debug)]
pub struct Pending {
    pub pos: Pos,
    pub due: u8,
    pub priority: u8,
}

/// Why there is no build of a box.
#[derive(Clone, Copy, PartialEq, Eq, Debug, Error)]
pub enum NewRefusal {
    #[error("the box has more than 16777216 cells")]
    Volume,
    #[error("out of memory")]
    NoMemory,
}

/// Why a tick isn't added to the pending ones.
#[derive(Clone, Copy, PartialEq, Eq, Debug, Error)]
pub enum PendingRefusal {
    #[error("no block that waits for a tick stands there")]
    NotTicking,
    #[error("the tick isn't due in 1 to 15 ticks with a priority of 0 to 3")]
    Range,
    #[error("a tick is pending there already")]
    Twice,
    #[error("out of memory")]
    NoMemory,
}

/// Why a click does nothing.
#[derive(Clone, Copy, PartialEq, Eq, Debug, Error)]
pub enum ClickRefusal {
    #[error("nothing there takes this click")]
    NotClickable,
}

/// What a view shows of an output: a lamp, a trapdoor and a note block 0 or 1, a wire its power.
#[derive(Clone, Copy, PartialEq, Eq, Debug)]
pub enum OutKind {
    Lamp,
    Trapdoor,
    Note,
    Wire,
}

/// A place that a view shows.
#[derive(Clone, Copy, PartialEq, Eq, Debug)]
pub struct OutPlace {
    pub pos: Pos,
    pub kind: OutKind,
}
