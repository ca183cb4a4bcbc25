//! How far a text has been read.

use report::OrderKind;

/// How far a text has been read: up to a place, with the views of so many ticks and so many
/// firings before it.
#[derive(Clone, Copy, Debug, PartialEq, Eq)]
pub struct Front {
    pub at: usize,
    pub tick: u32,
    pub fires: u64,
}

/// Where a bad line begins, how many ticks have their views before it, and what is wrong with it.
#[derive(Clone, Copy, Debug, PartialEq, Eq)]
pub struct Bad {
    pub at: usize,
    pub tick: u32,
    pub kind: OrderKind,
}

impl Front {
    ghost use Rattle.std.specs.Prelude.{◌≡◌};

    /// What is wrong with the line that stands next.
    pub fn bad(&self, kind: OrderKind) -> Bad
        ensures { result ≡ record { at = self.now.at; tick = self.now.tick; kind = kind } }
    {
        Bad {
            at: self.at,
            tick: self.tick,
            kind,
        }
    }
}
