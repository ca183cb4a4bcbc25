//! Orders of firings, checked against the world's rules.
#![tactic(auto)]

use report::OrderKind;

mod checking;
mod front;
pub mod laws;
mod lines;
mod take;
mod tick;

pub use checking::check;

/// What a text of an order that was taken has: so many ticks and firings.
#[derive(Clone, Copy, Debug, PartialEq, Eq)]
pub struct Checked {
    pub ticks: u32,
    pub fires: u64,
}

/// Why a text is none of an order.
#[derive(Clone, Copy, Debug, PartialEq, Eq)]
pub enum OrderRefusal {
    /// The first bad line, and the number of ticks whose views stand before it.
    At {
        line: u32,
        tick: u32,
        kind: OrderKind,
    },
    NoMemory,
}
