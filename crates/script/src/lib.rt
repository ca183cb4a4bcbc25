//! Scripts: what a text asks to be done to a build or a graph, and which places it marks.
#![tactic(auto)]

mod clickable;
mod lines;
mod play;
mod reading;

pub use circuit::{Click, Pos, Step};
pub use clickable::Targets;
pub use play::{Script, ScriptSteps};
pub use reading::{read_script, read_script_on};
use rp_text::NoMemory;
use std::alloc::AllocFailed;

/// One act of a script.
#[derive(Clone, Copy, PartialEq, Eq, Debug)]
pub enum Act {
    /// Toggles a lever, or presses a button.
    Use { pos: Pos },
    /// Steps on a plate.
    Press { pos: Pos },
    /// Steps off a plate or a weighted plate.
    Leave { pos: Pos },
    /// Puts a weight of 1 to 15 on a weighted plate.
    Weigh { pos: Pos, weight: u8 },
    /// So many ticks pass, which may be none.
    Ticks { count: u32 },
}

/// What is wrong with a line of a script.
#[derive(Clone, Copy, PartialEq, Eq, Debug)]
pub enum ScriptKind {
    /// The first word or the number of words is another.
    Word,
    /// A word isn't the number that belongs there.
    Number,
    /// Nothing at the place takes the click.
    NotClickable,
    /// There is no wire at the place.
    NotWire,
    /// The ticks up to and with this line are over 100,000.
    TooManyTicks,
}

/// Why a text is no script.
#[derive(Clone, Copy, PartialEq, Eq, Debug)]
pub enum ScriptRefusal {
    /// Lines count from 1.
    Line { line: u32, kind: ScriptKind },
    NoMemory,
}

impl From<NoMemory> for ScriptRefusal {
    ghost use Rattle.std.specs.Prelude.{◌≡◌};
    ghost use Rattle.script.specs.declared.ScriptRefusal.TheVariants.{NoMemory};

    ghost from_gives = { λ _ refusal. refusal ≡ NoMemory };

    fn from(_: NoMemory) -> Self {
        ScriptRefusal::NoMemory
    }
}

impl<T: Drop> From<AllocFailed<T>> for ScriptRefusal {
    ghost use Rattle.std.specs.Prelude.{◌≡◌};
    ghost use Rattle.script.specs.declared.ScriptRefusal.TheVariants.{NoMemory};

    ghost from_gives = { λ _ refusal. refusal ≡ NoMemory };

    fn from(_: AllocFailed<T>) -> Self {
        ScriptRefusal::NoMemory
    }
}
