//! Files from builds: both layouts of uncompressed Sponge schematics.
#![tactic(auto)]

mod entities;
mod fields;
mod laws;
mod numbers;
mod palette;
mod roots;
mod stacks;
mod varint;

pub use laws::{varints_are_shortest, written_is_read, written3_is_read};
pub use roots::{write_build, write_build3};

/// Which layout a file has: that of version 2 or that of version 3.
#[derive(Clone, Copy, PartialEq, Eq, Debug)]
enum Layout {
    Second,
    Third,
}
