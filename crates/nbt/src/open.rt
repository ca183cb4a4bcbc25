ghost use Rattle.std.specs.Prelude.{◌≡◌};
ghost use Rattle.nbt.specs.declared.open.Stop.TheVariants.{NoMemory};

use crate::refusals::NbtKind;
use crate::trees::{Fields, Root, Tree, Trees};
use rp_text::Raw;
use std::alloc::{AllocError, AllocFailed};

/// A compound or a list that is not closed yet, with what it holds so far. The name is empty where
/// a list holds it. `left` items of a list are still to come.
#[derive(Drop)]
pub enum Open {
    Compound {
        name: Raw,
        fields: Fields,
    },
    List {
        name: Raw,
        element: u8,
        left: usize,
        items: Trees,
    },
}

/// What comes next in an open compound or list.
#[derive(Drop)]
pub enum Piece {
    Tree { name: Raw, tree: Tree },
    Open(Open),
    /// The compound or list ends here.
    End,
}

/// Where the reader is after a step.
#[derive(Drop)]
pub enum Step<'a> {
    More { top: Open, rest: &'a [u8] },
    Whole { root: Root, rest: &'a [u8] },
}

/// Why reading stops. `left` bytes are left from the fault on.
#[derive(Clone, Copy, Debug, PartialEq, Eq)]
pub enum Stop {
    At { left: usize, kind: NbtKind },
    NoMemory,
}

impl From<AllocError> for Stop {
    ghost from_gives = { λ _ e. e ≡ NoMemory };

    fn from(_: AllocError) -> Self {
        Stop::NoMemory
    }
}

impl<T: Drop> From<AllocFailed<T>> for Stop {
    ghost from_gives = { λ _ e. e ≡ NoMemory };

    fn from(_: AllocFailed<T>) -> Self {
        Stop::NoMemory
    }
}
