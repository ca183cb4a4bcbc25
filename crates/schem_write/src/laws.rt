//! What holds of the files that are written.

ghost use Rattle.std.specs.Prelude.{◌≡◌, ◌≤◌, ℕ, List, true, length, IfOk};
ghost use Rattle.schematic.specs.Cells.{is_whole, value_of};
ghost use Rattle.schem_write.specs.Varint.{varint};

use crate::roots::{write_build, write_build3};
use build::Build;
use rp_text::NoMemory;
use schematic::{BuildRefusal, read_build};
use std::alloc::Global;

/// Writes a build in the layout of version 2 and reads it again. Only want of memory stops it.
pub fn written_is_read(alloc: Global, build: &Build) -> Result<Build, NoMemory>
    ensures { IfOk result (λ again. again ≡ build.now) }
{
    let bytes = write_build(alloc, build)?;
    match read_build(alloc, &bytes) {
        Ok(again) => Ok(again),
        Err(BuildRefusal::NoMemory) => Err(NoMemory),
        Err(_) => unreachable!(),
    }
}

/// Writes a build in the layout of version 3 and reads it again. Only want of memory stops it.
pub fn written3_is_read(alloc: Global, build: &Build) -> Result<Build, NoMemory>
    ensures { IfOk result (λ again. again ≡ build.now) }
{
    let bytes = write_build3(alloc, build)?;
    match read_build(alloc, &bytes) {
        Ok(again) => Ok(again),
        Err(BuildRefusal::NoMemory) => Err(NoMemory),
        Err(_) => unreachable!(),
    }
}

/// No varint of a number is shorter than the one that is written.
pub fn varints_are_shortest()
    ensures { (n : ℕ) (bytes : List ℕ) → is_whole bytes ≡ true → value_of bytes ≡ n → length (varint n) ≤ length bytes }
{}
