//! What `resolve` keeps from call to call.

ghost use Rattle.std.specs.Prelude.{◌≡◌, ◌<◌, ℕ, List, IfOk};
ghost use Rattle.wire_net.specs.Listed.{list_at};
ghost use Rattle.wire_net.specs.Net.{feeders_of};

use crate::Net;
use crate::cell_lists::CellLists;
use number_rows::{Lists, Rows, rows_from};
use rp_text::NoMemory;
use std::alloc::Global;
use std::marker::Model;

/// The cells and feeders of a net, also turned round, so that each cell knows the cells that it
/// feeds, and the room that `resolve` needs. Contracts see it as the feeders of each cell.
#[derive(Drop)]
pub struct Work {
    pub(crate) waves: Waves,
}

impl Model for Work {
    ghost Value = { List (List ℕ) };

    ghost view = { λ w. w.waves.feeders };

    ghost invariant = { λ w. Unit {0} };
}

impl Work {
    /// Work for this net, and for each other net with the same cells and feeders.
    pub fn new<N: Net>(alloc: Global, net: &N) -> Result<Work, NoMemory>
        ensures { IfOk result (λ work. work ≡ feeders_of (N.net net.now)) }
    {
        let waves = Waves::new(alloc, net)?;
        Ok(Work { waves })
    }
}

/// As `Work`, with the cells that the last call of `resolve_noted` listed. Contracts see the
/// feeders of each cell and those lists.
#[derive(Drop)]
pub struct Waves {
    pub(crate) feeders: Rows,
    pub(crate) fed: Rows,
    // The cells that fell to 0 in the call.
    pub(crate) fallen: Vec<u32>,
    // The cells that rose in the call, by the power that they rose to.
    pub(crate) levels: CellLists,
}

impl Model for Waves {
    ghost use Rattle.std.specs.Prelude.{vec_capacity};
    ghost use Rattle.wire_net.specs.Noted.{Waved};
    ghost use Rattle.wire_net.specs.Ready.{IsReady};

    ghost Value = { Waved };

    ghost view = { λ w. record { feeders = w.feeders; fallen = w.fallen.items; levels = w.levels.lists } };

    ghost invariant = { λ w. IsReady w.feeders w.fed w.levels (vec_capacity w.fallen) };
}

impl Waves {
    /// The lists for this net, and for each other net with the same cells and feeders.
    pub fn new<N: Net>(alloc: Global, net: &N) -> Result<Waves, NoMemory>
        ensures { IfOk result (λ waves. waves.feeders ≡ feeders_of (N.net net.now)) }
    {
        let cells = net.cells() as usize;
        let mut feeders = Lists::new(alloc, cells)?;
        let mut fed = Lists::new(alloc, cells)?;
        for cell in 0..net.cells() {
            for index in 0..net.feeder_count(cell) {
                let feeder = net.feeder(cell, index);
                feeders.push(cell as usize, feeder)?;
                fed.push(feeder as usize, cell)?;
            }
        }
        let feeders = rows_from(alloc, &feeders)?;
        let fed = rows_from(alloc, &fed)?;
        let fallen = Vec::with_capacity(alloc, cells)?;
        let levels = CellLists::new(alloc, 16, cells)?;
        Ok(Waves {
            feeders,
            fed,
            fallen,
            levels,
        })
    }

    /// The cells that fell to 0 in the last call. Some of them may have risen since.
    pub fn fallen(&self) -> &[u32]
        ensures { result.now ≡ self.now.fallen }
    {
        &self.fallen
    }

    /// The cells that rose to this power in the last call.
    pub fn risen(&self, power: u8) -> &[u32]
        requires { power < 16 }
        ensures { result.now ≡ list_at self.now.levels power }
    {
        self.levels.list(power as usize)
    }
}
