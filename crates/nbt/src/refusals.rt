ghost use Rattle.std.specs.Prelude.{◌≡◌};
ghost use Rattle.nbt.specs.declared.refusals.NbtRefusal.TheVariants.{NoMemory};

use rp_text::NoMemory;

/// What is wrong with the item at a place of a file.
#[derive(Clone, Copy, Debug, PartialEq, Eq)]
pub enum NbtKind {
    /// The file ends inside the root.
    Truncated,
    /// A type byte above 12.
    BadType,
    /// A length that is below zero, or above zero in a list of type End.
    BadLength,
    /// A compound or a list that the limit of depth forbids.
    TooDeep,
    /// A byte after the root.
    Trailing,
    /// The root is no compound.
    RootNotCompound,
}

/// Why a file is not read: the first fault from the left, or want of memory.
#[derive(Clone, Copy, Debug, PartialEq, Eq)]
pub enum NbtRefusal {
    At { place: u64, kind: NbtKind },
    NoMemory,
}

impl From<NoMemory> for NbtRefusal {
    ghost from_gives = { λ _ e. e ≡ NoMemory };

    fn from(_: NoMemory) -> Self {
        NbtRefusal::NoMemory
    }
}
