//! What can ever give power to what in a build. Blocks don't change while a build runs, so it is
//! found once.
#![tactic(auto)]

mod fill;
pub mod laws;
mod parts;
mod readers;
mod taps;
mod things;
mod turn;
mod wiring;

pub use fill::Kind;
pub use parts::Part;
pub use readers::{push_reader_side_taps, push_reader_taps};
pub use taps::{Tap, push_sources};
pub use things::Things;
pub use wiring::Wiring;
