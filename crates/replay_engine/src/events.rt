//! What happens in one click, and where one place fires.

ghost use Rattle.std.specs.Prelude.{◌≡◌, ◌≤◌, ◌<◌, ℕ, OnOk, OnErr, IsErrOf, None, true, false, length, map, slice_index, if◌then◌else◌};
ghost use Rattle.circuit.specs.declared.Pos.{Pos};
ghost use Rattle.circuit.specs.Bounds.{BoundedAt};
ghost use Rattle.circuit.specs.Circuit.{attend, fired_in, put, seen, start, Clicks, IsDue};
ghost use Rattle.circuit.specs.Taken.{Takes};
ghost use Rattle.build.specs.Roles.{role_at, stored};
ghost use Rattle.build.specs.Place.{same_place};
ghost use Rattle.cell_counts.specs.Held.{CanFollow, IsFirst, IsNow, NoneNow, cell_of};
ghost use Rattle.replay_engine.specs.Things.{held, state_by};
ghost use Rattle.replay_engine.specs.Running.{circuit_of, state_of, spot, AreIdle, AreStill, OthersStill, ArePowers, IsHolding, IsPlaying, FiresOne, IsUnlawful, shown_of};

use crate::attend::{attend_all, attend_near, attend_near_noted};
use crate::near::near_wires;
use crate::sight::{cell_at, fired, shown};
use crate::things::Things;
use crate::wires::{resolve, solve};
use build::{ClickRefusal, OutPlace};
use cell_counts::Cells;
use circuit::{Cell, Click, Pos};
use wire_net::Waves;

/// Why a place may not fire.
#[derive(Clone, Copy, Debug, PartialEq, Eq)]
pub enum Unlawful {
    /// It has fired at this time.
    Twice,
    /// No tick of it is due.
    NotDue,
    /// Something that is due has a lesser priority number.
    Priority,
}

/// From what the build stores the wires take their powers, and all things attend.
pub(crate) fn begin(things: &Things, powers: &mut [u8], cells: &mut Cells)
    requires cells_whole { length cells.old.cells ≡ length things.now.spots }
    requires powers_whole { length powers.old ≡ length things.now.spots }
    requires stored { state_of things.now cells.old ≡ record { time = 0; cells = stored things.now.plan things.now.marks } }
    ensures start { state_of things.now cells.new ≡ start (circuit_of things.now) }
    ensures holding { IsHolding things.now cells.new }
    ensures powers { ArePowers things.now cells.new.cells powers.new }
    ensures still { AreStill things.now cells.new.cells powers.new }
    ensures idle { AreIdle things.now cells.new.cells }
{
    let _ = things.count();
    solve(things, cells, powers);
    attend_all(things, powers, cells);
}

// A thing holds another cell, the wires take their powers by it, and all components attend. No
// other ones have to than those near the thing and near a wire whose power changed, since the
// others read what they read before.
fn settle(
    things: &Things,
    cells: &mut Cells,
    powers: &mut [u8],
    waves: &mut Waves,
    number: usize,
    cell: Cell,
)
    requires inside { number < length things.now.spots }
    requires playing { IsPlaying things.now cells.old powers.old waves.old.feeders }
    requires still { OthersStill things.now cells.old.cells powers.old (spot things.now number) }
    requires follows { CanFollow cells.old.time (cell_of cells.old.cells number) cell }
    requires bounded { BoundedAt (role_at things.now.plan things.now.marks (spot things.now number)) cell }
    requires idle { role_at things.now.plan things.now.marks (spot things.now number) ≡ None → cell.due ≡ 0 }
    ensures settled { state_of things.now cells.new ≡ attend (circuit_of things.now) (put (circuit_of things.now) (state_of things.now cells.old) (spot things.now number) cell) }
    ensures playing { IsPlaying things.now cells.new powers.new waves.new.feeders }
    ensures still { AreStill things.now cells.new.cells powers.new }
{
    let _ = things.count();
    cells.hold(number, cell);
    let mut changed = [0u32; 25];
    let count = near_wires(things, number, &mut changed);
    resolve(things, cells, powers, &changed[..count], waves);
    attend_near(things, powers, cells, number);
    attend_near_noted(things, powers, cells, waves);
}

// What a place holds after it has fired.
fn fired_from(things: &Things, cells: &Cells, powers: &[u8], pos: Pos) -> Cell
    requires holding { IsHolding things.now cells.now }
    requires powers_whole { length powers.now ≡ length things.now.spots }
    requires powers { ArePowers things.now cells.now.cells powers.now }
    ensures fired { result ≡ fired_in (circuit_of things.now) (state_of things.now cells.now) pos }
    ensures bounded { BoundedAt (role_at things.now.plan things.now.marks pos) result }
{
    let _ = things.count();
    fired(things, cells, powers, pos)
}

// The thing of a number, which is due first, fires, and all attend.
fn fire_now(things: &Things, cells: &mut Cells, powers: &mut [u8], waves: &mut Waves, number: usize)
    requires playing { IsPlaying things.now cells.old powers.old waves.old.feeders }
    requires still { AreStill things.now cells.old.cells powers.old }
    requires first { IsFirst cells.old number }
    ensures fired { FiresOne (circuit_of things.now) (state_of things.now cells.old) (state_of things.now cells.new) (spot things.now number) }
    ensures time { cells.new.time ≡ cells.old.time }
    ensures playing { IsPlaying things.now cells.new powers.new waves.new.feeders }
    ensures still { AreStill things.now cells.new.cells powers.new }
{
    let _ = things.count();
    cells.take(number);
    let cell = fired_from(things, cells, powers, things.spot(number));
    settle(things, cells, powers, waves, number, cell);
}

// Whether nothing that is due has a lesser priority number.
fn comes_first(cells: &Cells, priority: u8) -> bool
    ensures first { result ≡ true → (other : ℕ) → IsNow cells.now.time (cell_of cells.now.cells other) → priority ≤ (cell_of cells.now.cells other).priority }
    ensures later { result ≡ false → (other : ℕ) × (other < length cells.now.cells) × IsNow cells.now.time (cell_of cells.now.cells other) × ((cell_of cells.now.cells other).priority < priority) }
{
    match cells.least() {
        Some(least) => priority <= least,
        None => true,
    }
}

/// A place fires, and all attend, if it may fire now.
pub(crate) fn fire_at(
    things: &Things,
    cells: &mut Cells,
    powers: &mut [u8],
    waves: &mut Waves,
    latest: &mut [u64],
    pos: Pos,
) -> Result<(), Unlawful>
    requires playing { IsPlaying things.now cells.old powers.old waves.old.feeders }
    requires still { AreStill things.now cells.old.cells powers.old }
    requires whole { length latest.old ≡ length things.now.spots }
    requires late { 0 < cells.old.time }
    ensures fired { OnOk result (FiresOne (circuit_of things.now) (state_of things.now cells.old) (state_of things.now cells.new) pos) }
    ensures latest { OnOk result ((place : Pos) → held things.now latest.new 0 place ≡ (if same_place place pos then cells.old.time else held things.now latest.old 0 place)) }
    ensures past { OnOk result (((n : ℕ) → slice_index latest.old n ≤ cells.old.time) → (n : ℕ) → slice_index latest.new n ≤ cells.old.time) }
    ensures refused { (why : Unlawful) → IsErrOf result why → IsUnlawful (circuit_of things.now) (state_of things.now cells.old) (held things.now latest.old 0 pos ≡ cells.old.time) pos why }
    ensures same { OnErr result (cells.new ≡ cells.old) }
    ensures same_latest { OnErr result (latest.new ≡ latest.old) }
    ensures time { cells.new.time ≡ cells.old.time }
    ensures playing { IsPlaying things.now cells.new powers.new waves.new.feeders }
    ensures still { AreStill things.now cells.new.cells powers.new }
{
    let _ = things.count();
    let time = cells.now();
    let Some(number) = things.number(pos) else {
        return Err(Unlawful::NotDue);
    };
    if latest[number] == time {
        return Err(Unlawful::Twice);
    }
    let cell = cells.cell(number);
    if cell.due != time {
        return Err(Unlawful::NotDue);
    }
    if !comes_first(cells, cell.priority) {
        return Err(Unlawful::Priority);
    }
    fire_now(things, cells, powers, waves, number);
    latest[number] = time;
    Ok(())
}

/// Whether nothing is due.
pub(crate) fn is_quiet(things: &Things, cells: &Cells) -> bool
    requires whole { length cells.now.cells ≡ length things.now.spots }
    requires idle { AreIdle things.now cells.now.cells }
    ensures quiet { result ≡ true → (key : Pos) → IsDue (circuit_of things.now) (state_of things.now cells.now) key → ⊥ }
    ensures due { result ≡ false → (key : Pos) × IsDue (circuit_of things.now) (state_of things.now cells.now) key }
{
    let _ = things.count();
    match cells.least() {
        Some(_priority) => false,
        None => true,
    }
}

/// What a place takes of a click, and then all attend.
pub(crate) fn take_click(
    things: &Things,
    cells: &mut Cells,
    powers: &mut [u8],
    waves: &mut Waves,
    pos: Pos,
    click: Click,
) -> Result<(), ClickRefusal>
    requires playing { IsPlaying things.now cells.old powers.old waves.old.feeders }
    requires still { AreStill things.now cells.old.cells powers.old }
    ensures taken { OnOk result (Clicks (circuit_of things.now) pos click (state_of things.now cells.old) (state_of things.now cells.new)) }
    ensures refused { OnErr result (Takes (circuit_of things.now) pos click → ⊥) }
    ensures same { OnErr result (cells.new ≡ cells.old) }
    ensures time { cells.new.time ≡ cells.old.time }
    ensures playing { IsPlaying things.now cells.new powers.new waves.new.feeders }
    ensures still { AreStill things.now cells.new.cells powers.new }
    ensures none { NoneNow cells.old → NoneNow cells.new }
{
    let _ = things.count();
    let Some(number) = things.number(pos) else {
        return Err(ClickRefusal::NotClickable);
    };
    let Some(component) = things.role(pos) else {
        return Err(ClickRefusal::NotClickable);
    };
    let cell = cell_at(things, cells, pos);
    match circuit::clicked(component, click, cell.value) {
        None => Err(ClickRefusal::NotClickable),
        Some(value) => {
            let clicked = Cell { value, ..cell };
            settle(things, cells, powers, waves, number, clicked);
            Ok(())
        }
    }
}

// What a place shows.
fn shown_at(things: &Things, cells: &Cells, powers: &[u8], pos: Pos) -> u8
    requires holding { IsHolding things.now cells.now }
    requires powers_whole { length powers.now ≡ length things.now.spots }
    requires powers { ArePowers things.now cells.now.cells powers.now }
    ensures { result ≡ seen (circuit_of things.now) (state_by things.now 0 cells.now.cells) pos }
{
    let _ = things.count();
    shown(things, cells, powers, pos)
}

/// What some places show.
pub(crate) fn view_into(
    things: &Things,
    cells: &Cells,
    powers: &[u8],
    places: &[OutPlace],
    into: &mut [u8],
)
    requires holding { IsHolding things.now cells.now }
    requires powers_whole { length powers.now ≡ length things.now.spots }
    requires powers { ArePowers things.now cells.now.cells powers.now }
    requires room { length into.old ≡ length places.now }
    ensures { into.new ≡ map (shown_of things.now cells.now.cells) places.now }
{
    for (index, place) in places.iter().enumerate() {
        into[index] = shown_at(things, cells, powers, place.pos);
    }
}
