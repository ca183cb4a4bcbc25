//! Builds from files: both layouts of uncompressed Sponge schematics.
#![tactic(auto)]

mod cells;
mod entities;
mod entries;
mod fields;
mod laws;
mod palette;
mod pending;
mod presence;
mod reader;

use build::Pos;
pub use laws::{
    a_build_or_a_refusal, a_refusal_excludes, one_build, one_first_cause, what_is_read_is_whole,
};
use nbt::NbtKind;
pub use reader::read_build;
use rp_text::{NoMemory, Raw};
use std::alloc::{AllocError, AllocFailed};

/// A field of a build's file that must be there, or must have one kind. Each is written in the file as it is called here.
#[derive(Clone, Copy, PartialEq, Eq, Debug)]
pub enum FieldName {
    Schematic,
    Version,
    Width,
    Height,
    Length,
    Blocks,
    Palette,
    BlockData,
    Data,
    Metadata,
    RedpilePending,
}

/// Why bytes are no build's file. Of several causes the first in this order is given.
#[derive(Drop)]
pub enum BuildRefusal {
    /// The bytes start with those of gzip.
    Compressed,
    /// No NBT root is spelled so. The place counts bytes from the start of the file.
    Nbt { place: u64, kind: NbtKind },
    /// A field isn't there.
    Missing { field: FieldName },
    /// A field is of another kind than it must have.
    WrongKind { field: FieldName },
    /// The version isn't that of the layout.
    Version,
    /// The box has more than 16,777,216 cells.
    Volume,
    /// Two entries of the palette have one number.
    PaletteClash,
    /// The cells aren't as many numbers of the palette as the box has cells. The place counts bytes of the field.
    Data { place: u64 },
    /// The text of a palette entry means no block.
    Block { name: Raw },
    /// A comparator's stored output isn't 0 to 15.
    Signal { pos: Pos },
    /// A group of the pending ticks isn't right. Groups count from 0.
    Pending { group: u32 },
    NoMemory,
}

impl From<NoMemory> for BuildRefusal {
    ghost use Rattle.std.specs.Prelude.{◌≡◌};
    ghost use Rattle.schematic.specs.declared.BuildRefusal.{BuildRefusal};

    ghost from_gives = { λ _ e. e ≡ BuildRefusal.NoMemory };

    fn from(_: NoMemory) -> Self {
        BuildRefusal::NoMemory
    }
}

impl From<AllocError> for BuildRefusal {
    ghost use Rattle.std.specs.Prelude.{◌≡◌};
    ghost use Rattle.schematic.specs.declared.BuildRefusal.{BuildRefusal};

    ghost from_gives = { λ _ e. e ≡ BuildRefusal.NoMemory };

    fn from(_: AllocError) -> Self {
        BuildRefusal::NoMemory
    }
}

impl<T: Drop> From<AllocFailed<T>> for BuildRefusal {
    ghost use Rattle.std.specs.Prelude.{◌≡◌};
    ghost use Rattle.schematic.specs.declared.BuildRefusal.{BuildRefusal};

    ghost from_gives = { λ _ e. e ≡ BuildRefusal.NoMemory };

    fn from(_: AllocFailed<T>) -> Self {
        BuildRefusal::NoMemory
    }
}
