//! What happens in one click and in one tick.

ghost use Rattle.std.specs.Prelude.{◌≡◌, ◌<◌, OnOk, OnErr, length};
ghost use Rattle.circuit.specs.Bounds.{BoundedAt};
ghost use Rattle.circuit.specs.Circuit.{fired_in, start, Clicks};
ghost use Rattle.circuit.specs.Taken.{Takes};
ghost use Rattle.build.specs.Roles.{role_at, stored};
ghost use Rattle.circuit.specs.declared.Pos.{Pos};
ghost use Rattle.cell_queue.specs.Held.{NoneNow};
ghost use Rattle.world_engine.specs.Running.{circuit_of, state_of, spot, given_by, AreIdle, IsHolding, FiresAll, MayFire};
ghost use Rattle.wiring.specs.Wired.{IsWired, bases_of};
ghost use Rattle.world_engine.specs.Levels.{AreLevels, AreQuiet, IsPlaying};
ghost use Rattle.world_engine.specs.Screens.{AreFaced};

use crate::bases::{fill_bases, solve_levels};
use crate::screen::Screen;
use crate::settle::settle;
use crate::sight::cell_at;
use crate::told::{attend_all, fired};
use crate::valued::ValuedCells;
use build::ClickRefusal;
use circuit::{Cell, Click, Pos};
use wire_net::Waves;
use wiring::{Things, Wiring};

/// From what the build stores the things take their levels, and all attend.
pub(crate) fn begin(
    things: &Things,
    wiring: &Wiring,
    bases: &mut [u8],
    levels: &mut [u8],
    cells: &mut ValuedCells,
)
    requires wired { IsWired things.now wiring.now }
    requires cells_whole { length cells.old.cells ≡ length things.now.spots }
    requires bases_whole { length bases.old ≡ length things.now.spots }
    requires levels_whole { length levels.old ≡ length things.now.spots }
    requires stored { state_of things.now cells.old ≡ record { time = 0; cells = stored things.now.plan things.now.marks } }
    ensures start { state_of things.now cells.new ≡ start (circuit_of things.now) }
    ensures holding { IsHolding things.now cells.new }
    ensures based { bases.new ≡ bases_of things.now (given_by things.now cells.new.cells) }
    ensures right { AreLevels things.now cells.new.cells levels.new }
    ensures quiet { AreQuiet things.now cells.new.cells levels.new }
    ensures idle { AreIdle things.now cells.new.cells }
{
    let _ = things.count();
    fill_bases(things, wiring, cells, bases);
    solve_levels(things, wiring, cells, bases, levels);
    attend_all(things, wiring, levels, cells);
}

// What the thing of a number holds after it has fired.
fn fired_from(
    things: &Things,
    wiring: &Wiring,
    cells: &ValuedCells,
    levels: &[u8],
    number: usize,
) -> Cell
    requires inside { number < length things.now.spots }
    requires wired { IsWired things.now wiring.now }
    requires holding { IsHolding things.now cells.now }
    requires right { AreLevels things.now cells.now.cells levels.now }
    ensures fired { result ≡ fired_in (circuit_of things.now) (state_of things.now cells.now) (spot things.now number) }
    ensures bounded { BoundedAt (role_at things.now.plan things.now.marks (spot things.now number)) result }
{
    let _ = things.count();
    fired(things, wiring, levels, cells, number)
}

// The thing that fires next, if something is due, fires, and all attend.
fn fire_next(
    things: &Things,
    wiring: &Wiring,
    cells: &mut ValuedCells,
    bases: &mut [u8],
    levels: &mut [u8],
    waves: &mut Waves,
    screen: &mut Screen,
) -> Option<usize>
    requires playing { IsPlaying things.now wiring.now cells.old bases.old levels.old waves.old.feeders }
    requires quiet { AreQuiet things.now cells.old.cells levels.old }
    requires count { screen.old.count ≡ length things.now.spots }
    requires faced { AreFaced levels.old cells.old.cells screen.old }
    ensures state { MayFire things.now (state_of things.now cells.old) (state_of things.now cells.new) result }
    ensures playing { IsPlaying things.now wiring.now cells.new bases.new levels.new waves.new.feeders }
    ensures quiet { AreQuiet things.now cells.new.cells levels.new }
    ensures faced { AreFaced levels.new cells.new.cells screen.new }
    ensures outlets { screen.new.outlets ≡ screen.old.outlets }
    ensures count { screen.new.count ≡ screen.old.count }
{
    let _ = things.count();
    let Some(number) = cells.take_due() else {
        return None;
    };
    let cell = fired_from(things, wiring, cells, levels, number);
    settle(
        things, wiring, cells, bases, levels, waves, screen, number, cell,
    );
    Some(number)
}

/// Fires what is due, one by one, by rising priority.
pub(crate) fn fire_due(
    things: &Things,
    wiring: &Wiring,
    cells: &mut ValuedCells,
    bases: &mut [u8],
    levels: &mut [u8],
    waves: &mut Waves,
    screen: &mut Screen,
)
    requires late { 0 < cells.old.time }
    requires playing { IsPlaying things.now wiring.now cells.old bases.old levels.old waves.old.feeders }
    requires quiet { AreQuiet things.now cells.old.cells levels.old }
    requires count { screen.old.count ≡ length things.now.spots }
    requires faced { AreFaced levels.old cells.old.cells screen.old }
    ensures fired { FiresAll (circuit_of things.now) (state_of things.now cells.old) (state_of things.now cells.new) }
    ensures time { cells.new.time ≡ cells.old.time }
    ensures playing { IsPlaying things.now wiring.now cells.new bases.new levels.new waves.new.feeders }
    ensures quiet { AreQuiet things.now cells.new.cells levels.new }
    ensures faced { AreFaced levels.new cells.new.cells screen.new }
    ensures outlets { screen.new.outlets ≡ screen.old.outlets }
    ensures count { screen.new.count ≡ screen.old.count }
    ensures none { NoneNow cells.new }
{
    let _ = things.count();
    while let Some(_number) = fire_next(things, wiring, cells, bases, levels, waves, screen) {}
}

/// What a place takes of a click, and then all attend.
pub(crate) fn take_click(
    things: &Things,
    wiring: &Wiring,
    cells: &mut ValuedCells,
    bases: &mut [u8],
    levels: &mut [u8],
    waves: &mut Waves,
    screen: &mut Screen,
    pos: Pos,
    click: Click,
) -> Result<(), ClickRefusal>
    requires playing { IsPlaying things.now wiring.now cells.old bases.old levels.old waves.old.feeders }
    requires quiet { AreQuiet things.now cells.old.cells levels.old }
    requires count { screen.old.count ≡ length things.now.spots }
    requires faced { AreFaced levels.old cells.old.cells screen.old }
    requires none { NoneNow cells.old }
    ensures taken { OnOk result (Clicks (circuit_of things.now) pos click (state_of things.now cells.old) (state_of things.now cells.new)) }
    ensures refused { OnErr result (Takes (circuit_of things.now) pos click → ⊥) }
    ensures same { OnErr result (cells.new ≡ cells.old) }
    ensures time { cells.new.time ≡ cells.old.time }
    ensures playing { IsPlaying things.now wiring.now cells.new bases.new levels.new waves.new.feeders }
    ensures quiet { AreQuiet things.now cells.new.cells levels.new }
    ensures faced { AreFaced levels.new cells.new.cells screen.new }
    ensures outlets { screen.new.outlets ≡ screen.old.outlets }
    ensures count { screen.new.count ≡ screen.old.count }
    ensures none { NoneNow cells.new }
{
    let _ = things.count();
    let Some(number) = things.number(pos) else {
        return Err(ClickRefusal::NotClickable);
    };
    let Some(component) = things.role(pos) else {
        return Err(ClickRefusal::NotClickable);
    };
    let cell = cell_at(things, cells, pos);
    match circuit::clicked(component, click, cell.value) {
        None => Err(ClickRefusal::NotClickable),
        Some(value) => {
            let clicked = Cell { value, ..cell };
            settle(
                things, wiring, cells, bases, levels, waves, screen, number, clicked,
            );
            Ok(())
        }
    }
}
