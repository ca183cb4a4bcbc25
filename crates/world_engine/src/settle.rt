//! One event of a running build, by the levels of its things.

ghost use Rattle.std.specs.Prelude.{◌≡◌, ◌<◌, None, length};
ghost use Rattle.circuit.specs.Bounds.{BoundedAt};
ghost use Rattle.circuit.specs.Circuit.{attend, put};
ghost use Rattle.build.specs.Roles.{role_at};
ghost use Rattle.cell_queue.specs.Held.{CanFollow, cell_of};
ghost use Rattle.wiring.specs.Things.{spot};
ghost use Rattle.world_engine.specs.Running.{circuit_of, state_of};
ghost use Rattle.world_engine.specs.Levels.{AreQuiet, OthersQuiet, IsPlaying};
ghost use Rattle.world_engine.specs.Screens.{AreFaced};

use crate::bases::{rebase, relevel};
use crate::screen::Screen;
use crate::told::attend_told;
use crate::valued::ValuedCells;
use circuit::Cell;
use wire_net::Waves;
use wiring::{Things, Wiring};

/// A thing holds another cell, the wires take their powers by it, and all components attend. No
/// others have to than the thing itself and those that tap a thing whose level changed, since the
/// others read what they read before. The outputs show what they must.
pub(crate) fn settle(
    things: &Things,
    wiring: &Wiring,
    cells: &mut ValuedCells,
    bases: &mut [u8],
    levels: &mut [u8],
    waves: &mut Waves,
    screen: &mut Screen,
    number: usize,
    cell: Cell,
)
    requires inside { number < length things.now.spots }
    requires playing { IsPlaying things.now wiring.now cells.old bases.old levels.old waves.old.feeders }
    requires quiet { OthersQuiet things.now cells.old.cells levels.old (spot things.now number) }
    requires follows { CanFollow cells.old.time (cell_of cells.old.cells number) cell }
    requires bounded { BoundedAt (role_at things.now.plan things.now.marks (spot things.now number)) cell }
    requires count { screen.old.count ≡ length things.now.spots }
    requires faced { AreFaced levels.old cells.old.cells screen.old }
    requires idle { role_at things.now.plan things.now.marks (spot things.now number) ≡ None → cell.due ≡ 0 }
    ensures settled { state_of things.now cells.new ≡ attend (circuit_of things.now) (put (circuit_of things.now) (state_of things.now cells.old) (spot things.now number) cell) }
    ensures playing { IsPlaying things.now wiring.now cells.new bases.new levels.new waves.new.feeders }
    ensures quiet { AreQuiet things.now cells.new.cells levels.new }
    ensures faced { AreFaced levels.new cells.new.cells screen.new }
    ensures outlets { screen.new.outlets ≡ screen.old.outlets }
    ensures count { screen.new.count ≡ screen.old.count }
{
    let _ = things.count();
    cells.hold(number, cell);
    rebase(things, wiring, cells, bases, number);
    relevel(
        things,
        wiring,
        cells,
        bases,
        levels,
        wiring.driven(number),
        waves,
    );
    attend_told(things, wiring, levels, cells, screen, number, waves);
}
