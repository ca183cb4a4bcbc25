//! How things attend by the levels of their taps.

ghost use Rattle.std.specs.Prelude.{◌≡◌, ◌≢◌, ◌<◌, ◌⊎◌, ℕ, Some, false, length};
ghost use Rattle.build.specs.Roles.{first_at, role_at};
ghost use Rattle.circuit.specs.Component.{attended};
ghost use Rattle.circuit.specs.Circuit.{attend, fired_at, seen_at};
ghost use Rattle.circuit.specs.declared.Component.TheVariants.{Wire};
ghost use Rattle.cell_queue.specs.Held.{cell_of};
ghost use Rattle.wire_net.specs.Noted.{AreCells, IsNoted};
ghost use Rattle.wire_net.specs.WaveSteps.{AreBelow, Has};
ghost use Rattle.wire_shape.specs.Shape.{wire_at};
ghost use Rattle.wiring.specs.Things.{held, spot};
ghost use Rattle.wiring.specs.Reads.{IsPlain};
ghost use Rattle.wiring.specs.Wired.{IsWired};
ghost use Rattle.world_engine.specs.Running.{circuit_of, given_by, state_of, IsHolding};
ghost use Rattle.world_engine.specs.Levels.{AreLevels, AreQuiet, reads_by, HaveAttended, IsReader, IsReaderOf, IsTold};
ghost use Rattle.world_engine.specs.Screens.{NoThing, Refaced};

use crate::bases::row_level;
use crate::parts::{is_first, is_wire_of, role_of, strengthened};
use crate::screen::Screen;
use crate::valued::ValuedCells;
use circuit::{Cell, Component, Readings};
use wire_net::Waves;
use wiring::{Things, Wiring};

// What a thing that is no wire reads.
fn reads_of(things: &Things, wiring: &Wiring, levels: &[u8], number: usize) -> Readings
    requires inside { number < length things.now.spots }
    requires dry { wire_at things.now.plan (spot things.now number) ≡ false }
    requires wired { IsWired things.now wiring.now }
    requires whole { length levels.now ≡ length things.now.spots }
    requires plain { IsPlain things.now.plan (held things.now levels.now 0) }
    ensures { result ≡ reads_by things.now levels.now (spot things.now number) }
{
    let _ = things.count();
    let back = row_level(levels, wiring.back(number));
    let side = row_level(levels, wiring.side(number));
    Readings {
        back: strengthened(things, wiring, number, back),
        side,
    }
}

// What a component that is no wire holds after it has attended.
fn attended_of(
    things: &Things,
    wiring: &Wiring,
    levels: &[u8],
    cells: &ValuedCells,
    number: usize,
    component: Component,
) -> Cell
    requires inside { number < length things.now.spots }
    requires dry { wire_at things.now.plan (spot things.now number) ≡ false }
    requires wired { IsWired things.now wiring.now }
    requires whole { length levels.now ≡ length things.now.spots }
    requires plain { IsPlain things.now.plan (held things.now levels.now 0) }
    requires holding { IsHolding things.now cells.now }
    ensures { result ≡ attended cells.now.time component (first_at things.now.plan (spot things.now number)) (reads_by things.now levels.now (spot things.now number)) (cell_of cells.now.cells number) }
{
    circuit::attended(
        cells.now(),
        component,
        is_first(things, wiring, number),
        reads_of(things, wiring, levels, number),
        cells.cell(number),
    )
}

// The thing of a number attends.
fn attend_thing(
    things: &Things,
    wiring: &Wiring,
    levels: &[u8],
    cells: &mut ValuedCells,
    number: usize,
)
    requires inside { number < length things.now.spots }
    requires wired { IsWired things.now wiring.now }
    requires whole { length levels.now ≡ length things.now.spots }
    requires plain { IsPlain things.now.plan (held things.now levels.now 0) }
    requires holding { IsHolding things.now cells.old }
    ensures attended { HaveAttended things.now cells.old.time levels.now cells.old.cells cells.new.cells (λ p. p ≡ spot things.now number) }
    ensures holding { IsHolding things.now cells.new }
    ensures time { cells.new.time ≡ cells.old.time }
    ensures others { (k : ℕ) → k ≢ number → cell_of cells.new.cells k ≡ cell_of cells.old.cells k }
{
    let _ = things.count();
    if is_wire_of(things, wiring, number) {
        return;
    }
    let Some(component) = role_of(things, wiring, number) else {
        return;
    };
    let cell = attended_of(things, wiring, levels, cells, number, component);
    cells.hold(number, cell);
}

// The thing of a number attends, and its output shows what it must.
fn attend_shown(
    things: &Things,
    wiring: &Wiring,
    levels: &[u8],
    cells: &mut ValuedCells,
    screen: &mut Screen,
    number: usize,
)
    requires inside { number < length things.now.spots }
    requires wired { IsWired things.now wiring.now }
    requires whole { length levels.now ≡ length things.now.spots }
    requires plain { IsPlain things.now.plan (held things.now levels.now 0) }
    requires holding { IsHolding things.now cells.old }
    requires count { screen.old.count ≡ length things.now.spots }
    ensures attended { HaveAttended things.now cells.old.time levels.now cells.old.cells cells.new.cells (λ p. p ≡ spot things.now number) }
    ensures holding { IsHolding things.now cells.new }
    ensures time { cells.new.time ≡ cells.old.time }
    ensures refaced { Refaced levels.now cells.old.cells cells.new.cells screen.old screen.new (λ n. n ≡ number) }
{
    attend_thing(things, wiring, levels, cells, number);
    screen.refresh(levels, cells, number);
}

// The readers that tap a thing attend, and their outputs show what they must.
fn attend_readers(
    things: &Things,
    wiring: &Wiring,
    levels: &[u8],
    cells: &mut ValuedCells,
    screen: &mut Screen,
    tap: usize,
)
    requires wired { IsWired things.now wiring.now }
    requires whole { length levels.now ≡ length things.now.spots }
    requires plain { IsPlain things.now.plan (held things.now levels.now 0) }
    requires holding { IsHolding things.now cells.old }
    requires count { screen.old.count ≡ length things.now.spots }
    ensures attended { HaveAttended things.now cells.old.time levels.now cells.old.cells cells.new.cells (IsReader things.now wiring.now tap) }
    ensures holding { IsHolding things.now cells.new }
    ensures time { cells.new.time ≡ cells.old.time }
    ensures refaced { Refaced levels.now cells.old.cells cells.new.cells screen.old screen.new NoThing }
{
    for reader in wiring.readers(tap) {
        attend_shown(things, wiring, levels, cells, screen, *reader as usize);
    }
}

// The readers that tap one of these things attend, and the outputs of these and of the readers
// show what they must.
fn attend_readers_of(
    things: &Things,
    wiring: &Wiring,
    levels: &[u8],
    cells: &mut ValuedCells,
    screen: &mut Screen,
    taps: &[u32],
)
    requires wired { IsWired things.now wiring.now }
    requires whole { length levels.now ≡ length things.now.spots }
    requires plain { IsPlain things.now.plan (held things.now levels.now 0) }
    requires holding { IsHolding things.now cells.old }
    requires count { screen.old.count ≡ length things.now.spots }
    requires below { AreBelow (length things.now.spots) taps.now }
    ensures attended { HaveAttended things.now cells.old.time levels.now cells.old.cells cells.new.cells (IsReaderOf things.now wiring.now (Has taps.now)) }
    ensures holding { IsHolding things.now cells.new }
    ensures time { cells.new.time ≡ cells.old.time }
    ensures refaced { Refaced levels.now cells.old.cells cells.new.cells screen.old screen.new (Has taps.now) }
{
    for tap in taps {
        screen.refresh(levels, cells, *tap as usize);
        attend_readers(things, wiring, levels, cells, screen, *tap as usize);
    }
}

/// The thing of a number attends, and so do the readers that tap a thing whose level changed. The
/// outputs of all these show what they must.
pub(crate) fn attend_told(
    things: &Things,
    wiring: &Wiring,
    levels: &[u8],
    cells: &mut ValuedCells,
    screen: &mut Screen,
    number: usize,
    waves: &Waves,
)
    requires inside { number < length things.now.spots }
    requires cells { AreCells (length things.now.spots) waves.now }
    requires wired { IsWired things.now wiring.now }
    requires whole { length levels.now ≡ length things.now.spots }
    requires plain { IsPlain things.now.plan (held things.now levels.now 0) }
    requires holding { IsHolding things.now cells.old }
    requires count { screen.old.count ≡ length things.now.spots }
    ensures attended { HaveAttended things.now cells.old.time levels.now cells.old.cells cells.new.cells (IsTold things.now wiring.now number waves.now) }
    ensures holding { IsHolding things.now cells.new }
    ensures time { cells.new.time ≡ cells.old.time }
    ensures refaced { Refaced levels.now cells.old.cells cells.new.cells screen.old screen.new (λ n. (n ≡ number) ⊎ IsNoted waves.now n) }
{
    attend_shown(things, wiring, levels, cells, screen, number);
    attend_readers_of(things, wiring, levels, cells, screen, waves.fallen());
    for power in 0..16u8 {
        attend_readers_of(things, wiring, levels, cells, screen, waves.risen(power));
    }
}

/// All things attend.
pub(crate) fn attend_all(things: &Things, wiring: &Wiring, levels: &[u8], cells: &mut ValuedCells)
    requires wired { IsWired things.now wiring.now }
    requires right { AreLevels things.now cells.old.cells levels.now }
    requires holding { IsHolding things.now cells.old }
    ensures attended { state_of things.now cells.new ≡ attend (circuit_of things.now) (state_of things.now cells.old) }
    ensures holding { IsHolding things.now cells.new }
    ensures same { given_by things.now cells.new.cells ≡ given_by things.now cells.old.cells }
    ensures quiet { AreQuiet things.now cells.new.cells levels.now }
{
    for number in 0..things.count() {
        attend_thing(things, wiring, levels, cells, number);
    }
}

// What the thing of a number reads. A wire reads itself.
fn reads_any(things: &Things, wiring: &Wiring, levels: &[u8], number: usize) -> Readings
    requires inside { number < length things.now.spots }
    requires wired { IsWired things.now wiring.now }
    requires whole { length levels.now ≡ length things.now.spots }
    requires plain { IsPlain things.now.plan (held things.now levels.now 0) }
    ensures { result ≡ reads_by things.now levels.now (spot things.now number) }
{
    let _ = things.count();
    if is_wire_of(things, wiring, number) {
        Readings {
            back: levels[number],
            side: 0,
        }
    } else {
        reads_of(things, wiring, levels, number)
    }
}

/// What the thing of a number holds after it has fired.
pub(crate) fn fired(
    things: &Things,
    wiring: &Wiring,
    levels: &[u8],
    cells: &ValuedCells,
    number: usize,
) -> Cell
    requires inside { number < length things.now.spots }
    requires wired { IsWired things.now wiring.now }
    requires whole { length levels.now ≡ length things.now.spots }
    requires plain { IsPlain things.now.plan (held things.now levels.now 0) }
    requires holding { IsHolding things.now cells.now }
    ensures { result ≡ fired_at cells.now.time (role_at things.now.plan things.now.marks (spot things.now number)) (first_at things.now.plan (spot things.now number)) (reads_by things.now levels.now) (spot things.now number) (cell_of cells.now.cells number) }
{
    let cell = cells.cell(number);
    match role_of(things, wiring, number) {
        Some(component) => circuit::fired(
            cells.now(),
            component,
            is_first(things, wiring, number),
            reads_any(things, wiring, levels, number),
            cell,
        ),
        None => cell,
    }
}
