//! The wires of a running build.

ghost use Rattle.std.specs.Prelude.{◌≡◌, ◌⊎◌, ℕ, IfOk, IsTrue, length, slice_index};
ghost use Rattle.build.specs.Plan.{in_box};
ghost use Rattle.wire_shape.specs.Shape.{wire_at};
ghost use Rattle.wire_shape.specs.Feeders.{feeders};
ghost use Rattle.power_rules.specs.RightWires.{source_power};
ghost use Rattle.wire_net.specs.Net.{IsClosed, WasRight};
ghost use Rattle.wire_net.specs.Noted.{AreCells, IsNoted};
ghost use Rattle.wire_net.specs.WaveSteps.{AreBelow};
ghost use Rattle.replay_engine.specs.WireThings.{number_of, thing_cells, feeders_in};
ghost use Rattle.replay_engine.specs.Running.{given_by, AreWithin, ArePowers};

use crate::sight::Given;
use crate::things::Things;
use block_table::Side;
use build::Build;
use cell_counts::Cells;
use circuit::Pos;
use power_rules::{Levels, read_no_dust};
use rp_text::NoMemory;
use std::alloc::Global;
use wire_net::{Net, Waves, resolve_noted, solve_into};
use wire_shape::{Feeders, feeders_of, wire_at};

// The greatest power that a block reads from its six neighbours if no wire gave any.
#[tactic(auto, unfolding(power_rules::specs::RightWires::source_power))]
fn source_power<L: Levels>(build: &Build, levels: &L, pos: Pos) -> u8
    requires { IsTrue (in_box build.now pos) }
    ensures { result ≡ source_power build.now (L.level_of levels.now) pos }
{
    let down = read_no_dust(build, levels, pos, Side::Down);
    let up = read_no_dust(build, levels, pos, Side::Up);
    let north = read_no_dust(build, levels, pos, Side::North);
    let south = read_no_dust(build, levels, pos, Side::South);
    let west = read_no_dust(build, levels, pos, Side::West);
    let east = read_no_dust(build, levels, pos, Side::East);
    down.max(up.max(north.max(south.max(west.max(east)))))
}

/// The number of a thing, 0 where none stands.
pub(crate) fn number_of(things: &Things, pos: Pos) -> u32
    ensures { result ≡ number_of things.now pos }
{
    let _ = things.count();
    match things.number(pos) {
        Some(number) => number as u32,
        None => 0,
    }
}

/// Whether a wire stands at a place.
pub(crate) fn wire_there(things: &Things, pos: Pos) -> bool
    ensures { result ≡ wire_at things.now.plan pos }
{
    wire_at(things.build(), pos)
}

fn source_of(given: &Given, pos: Pos) -> u8
    requires { IsTrue (in_box given.now.things.now.plan pos) }
    ensures { result ≡ source_power given.now.things.now.plan (given_by given.now.things.now given.now.cells.now.cells) pos }
{
    source_power(given.things.build(), given, pos)
}

fn feeders_at(things: &Things, pos: Pos) -> Feeders
    requires { IsTrue (wire_at things.now.plan pos) }
    ensures { result ≡ feeders things.now.plan pos }
{
    feeders_of(things.build(), pos)
}

// The wires as a net: a cell for each thing, which is empty where it is no wire.
#[derive(Drop)]
struct Wires<'t, 'c> {
    given: Given<'t, 'c>,
    ghost net_closed: { IsClosed (thing_cells given.things.now (given_by given.things.now given.cells.now.cells)) },
}

impl<'t, 'c> Net for Wires<'t, 'c> {
    ghost use Rattle.replay_engine.specs.Given.{given_bounded};

    ghost net = { λ s. thing_cells s.given.things.now (given_by s.given.things.now s.given.cells.now.cells) };

    ghost bounded = { λ s. given_bounded s.given.things.now s.given.cells.now.cells s.given.within };

    ghost closed = { λ s. s.net_closed };

    fn cells(&self) -> u32 {
        self.given.things.count() as u32
    }

    fn base(&self, cell: u32) -> u8 {
        let pos = self.given.things.spot(cell as usize);
        if wire_there(self.given.things, pos) {
            source_of(&self.given, pos)
        } else {
            0
        }
    }

    fn feeder_count(&self, cell: u32) -> u8 {
        let pos = self.given.things.spot(cell as usize);
        if wire_there(self.given.things, pos) {
            feeders_at(self.given.things, pos).len() as u8
        } else {
            0
        }
    }

    fn feeder(&self, cell: u32, index: u8) -> u32 {
        let pos = self.given.things.spot(cell as usize);
        if wire_there(self.given.things, pos) {
            number_of(
                self.given.things,
                feeders_at(self.given.things, pos).get(usize::from(index)),
            )
        } else {
            0
        }
    }
}

/// Writes the powers of the things, whatever stood there.
pub(crate) fn solve(things: &Things, cells: &Cells, powers: &mut [u8])
    requires within { AreWithin things.now cells.now.cells }
    requires powers_whole { length powers.old ≡ length things.now.spots }
    ensures { ArePowers things.now cells.now.cells powers.new }
{
    let _ = things.count();
    let given = Given { things, cells };
    solve_into(&Wires { given }, powers);
}

/// What `resolve` needs of the things, with the room that it takes.
pub(crate) fn new_waves(alloc: Global, things: &Things, cells: &Cells) -> Result<Waves, NoMemory>
    requires within { AreWithin things.now cells.now.cells }
    ensures { IfOk result (λ waves. waves.feeders ≡ feeders_in things.now) }
{
    let _ = things.count();
    let given = Given { things, cells };
    let waves = Waves::new(alloc, &Wires { given })?;
    Ok(waves)
}

/// Writes the powers anew, where no other things than the changed ones have another base power. It
/// lists each thing whose power changes.
pub(crate) fn resolve(
    things: &Things,
    cells: &Cells,
    powers: &mut [u8],
    changed: &[u32],
    waves: &mut Waves,
)
    requires within { AreWithin things.now cells.now.cells }
    requires made { waves.old.feeders ≡ feeders_in things.now }
    requires right { WasRight (thing_cells things.now (given_by things.now cells.now.cells)) powers.old changed.now }
    requires inside { AreBelow (length things.now.spots) changed.now }
    ensures right { ArePowers things.now cells.now.cells powers.new }
    ensures made { waves.new.feeders ≡ feeders_in things.now }
    ensures noted { (number : ℕ) → (slice_index powers.new number ≡ slice_index powers.old number) ⊎ IsNoted waves.new number }
    ensures inside { AreCells (length things.now.spots) waves.new }
{
    let _ = things.count();
    let given = Given { things, cells };
    resolve_noted(&Wires { given }, powers, changed, waves);
}
