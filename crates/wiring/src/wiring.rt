//! What taps what in a build.

ghost use Rattle.std.specs.Prelude.{◌≡◌, ◌<◌, IfOk, length};
ghost use Rattle.wire_net.specs.Listed.{list_at};
ghost use Rattle.wiring.specs.Parts.{part_in};
ghost use Rattle.wiring.specs.Wired.{IsWired};

use crate::fill::{Kind, rows_of};
use crate::parts::{Part, parts_of};
use crate::things::Things;
use crate::turn::{driven_of, readers_of};
use number_rows::Rows;
use rp_text::NoMemory;
use std::alloc::Global;
use std::marker::Model;

/// What taps what in a build, by the numbers of its things. It is found once.
#[derive(Drop)]
pub struct Wiring {
    parts: Vec<Part>,
    back: Rows,
    side: Rows,
    direct: Rows,
    feeders: Rows,
    readers: Rows,
    driven: Rows,
}

impl Model for Wiring {
    ghost use Rattle.wiring.specs.Wired.{Wired};

    ghost Value = { Wired };

    ghost view = { λ w. record { parts = w.parts.items; back = w.back; side = w.side; direct = w.direct; feeders = w.feeders; readers = w.readers; driven = w.driven } };

    ghost invariant = { λ w. Unit {0} };
}

impl Wiring {
    /// What taps what among these things.
    pub fn new(alloc: Global, things: &Things) -> Result<Wiring, NoMemory>
        ensures { IfOk result (λ wiring. IsWired things.now wiring) }
    {
        let count = things.count();
        let parts = parts_of(alloc, things)?;
        let back = rows_of(alloc, things, Kind::Back)?;
        let side = rows_of(alloc, things, Kind::Side)?;
        let direct = rows_of(alloc, things, Kind::Direct)?;
        let feeders = rows_of(alloc, things, Kind::Feeders)?;
        let readers = readers_of(alloc, &back, &side, count)?;
        let driven = driven_of(alloc, &direct, count)?;
        Ok(Wiring {
            parts,
            back,
            side,
            direct,
            feeders,
            readers,
            driven,
        })
    }

    /// What is known of a thing before the build runs.
    pub fn part(&self, number: usize) -> Part
        requires { number < length self.now.parts }
        ensures { result ≡ part_in self.now.parts number }
    {
        self.parts[number]
    }

    /// The taps of the back of a thing. A wire has none here.
    pub fn back(&self, number: usize) -> &[u32]
        ensures { result.now ≡ list_at self.now.back number }
    {
        self.back.row(number)
    }

    /// The taps of its sides.
    pub fn side(&self, number: usize) -> &[u32]
        ensures { result.now ≡ list_at self.now.side number }
    {
        self.side.row(number)
    }

    /// What gives a wire power without dust.
    pub fn direct(&self, number: usize) -> &[u32]
        ensures { result.now ≡ list_at self.now.direct number }
    {
        self.direct.row(number)
    }

    /// The feeders of a wire.
    pub fn feeders(&self, number: usize) -> &[u32]
        ensures { result.now ≡ list_at self.now.feeders number }
    {
        self.feeders.row(number)
    }

    /// The readers that tap a thing.
    pub fn readers(&self, number: usize) -> &[u32]
        ensures { result.now ≡ list_at self.now.readers number }
    {
        self.readers.row(number)
    }

    /// A thing, and behind it the wires that it gives power to without dust.
    pub fn driven(&self, number: usize) -> &[u32]
        ensures { result.now ≡ list_at self.now.driven number }
    {
        self.driven.row(number)
    }
}
