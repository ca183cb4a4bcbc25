//! The NBT format: trees of named values, read from bytes and written to bytes.
#![tactic(auto)]

mod fields;
mod front;
mod laws;
mod leaves;
mod open;
mod pieces;
mod reader;
mod refusals;
mod trees;
mod writer;

pub use fields::find_field;
pub use laws::{
    a_fault_excludes, a_fault_is_the_first, a_root_or_a_fault, a_spelling_is_bytes,
    no_longer_spelling, one_first_fault, one_root, written_is_read,
};
pub use reader::read;
pub use refusals::{NbtKind, NbtRefusal};
pub use trees::{Field, Fields, IntList, LongList, Root, Tree, Trees};
pub use writer::write;
