//! How things attend, one after another.

ghost use Rattle.std.specs.Prelude.{◌≡◌, ◌<◌, length};
ghost use Rattle.circuit.specs.Circuit.{attend};
ghost use Rattle.wire_net.specs.Noted.{AreCells, IsNoted};
ghost use Rattle.wire_net.specs.WaveSteps.{AreBelow, Has};
ghost use Rattle.replay_engine.specs.Near.{IsNearby};
ghost use Rattle.replay_engine.specs.Running.{circuit_of, state_of, spot, AreSmall, AreStill, ArePowers, Attends, IsHolding, IsNearOne};

use crate::near::nearby;
use crate::sight::attended;
use crate::things::Things;
use cell_counts::Cells;
use circuit::Pos;
use wire_net::Waves;

// What stands at a place attends.
fn attend_at(things: &Things, powers: &[u8], cells: &mut Cells, pos: Pos)
    requires holding { IsHolding things.now cells.old }
    requires powers_whole { length powers.now ≡ length things.now.spots }
    requires small { AreSmall powers.now }
    ensures attends { Attends things.now cells.old.time powers.now cells.old.cells cells.new.cells (λ p. p ≡ pos) }
    ensures holding { IsHolding things.now cells.new }
    ensures time { cells.new.time ≡ cells.old.time }
{
    let _ = things.count();
    let Some(component) = things.role(pos) else {
        return;
    };
    let Some(number) = things.number(pos) else {
        return;
    };
    let cell = attended(things, cells, powers, pos, component, cells.cell(number));
    cells.hold(number, cell);
}

/// All things attend.
pub(crate) fn attend_all(things: &Things, powers: &[u8], cells: &mut Cells)
    requires holding { IsHolding things.now cells.old }
    requires powers_whole { length powers.now ≡ length things.now.spots }
    requires powers { ArePowers things.now cells.old.cells powers.now }
    ensures attended { state_of things.now cells.new ≡ attend (circuit_of things.now) (state_of things.now cells.old) }
    ensures holding { IsHolding things.now cells.new }
    ensures time { cells.new.time ≡ cells.old.time }
    ensures powers { ArePowers things.now cells.new.cells powers.now }
    ensures still { AreStill things.now cells.new.cells powers.now }
{
    for number in 0..things.count() {
        attend_at(things, powers, cells, things.spot(number));
    }
}

/// What stands within two steps of a thing attends.
pub(crate) fn attend_near(things: &Things, powers: &[u8], cells: &mut Cells, number: usize)
    requires inside { number < length things.now.spots }
    requires holding { IsHolding things.now cells.old }
    requires powers_whole { length powers.now ≡ length things.now.spots }
    requires small { AreSmall powers.now }
    ensures attends { Attends things.now cells.old.time powers.now cells.old.cells cells.new.cells (IsNearby (spot things.now number)) }
    ensures holding { IsHolding things.now cells.new }
    ensures time { cells.new.time ≡ cells.old.time }
{
    let _ = things.count();
    for pos in nearby(things.spot(number)) {
        attend_at(things, powers, cells, pos);
    }
}

// What stands within two steps of one of these things attends.
fn attend_near_each(things: &Things, powers: &[u8], cells: &mut Cells, numbers: &[u32])
    requires inside { AreBelow (length things.now.spots) numbers.now }
    requires holding { IsHolding things.now cells.old }
    requires powers_whole { length powers.now ≡ length things.now.spots }
    requires small { AreSmall powers.now }
    ensures attends { Attends things.now cells.old.time powers.now cells.old.cells cells.new.cells (IsNearOne things.now (Has numbers.now)) }
    ensures holding { IsHolding things.now cells.new }
    ensures time { cells.new.time ≡ cells.old.time }
{
    for number in numbers {
        attend_near(things, powers, cells, *number as usize);
    }
}

/// What stands within two steps of a wire whose power changed attends.
pub(crate) fn attend_near_noted(things: &Things, powers: &[u8], cells: &mut Cells, waves: &Waves)
    requires inside { AreCells (length things.now.spots) waves.now }
    requires holding { IsHolding things.now cells.old }
    requires powers_whole { length powers.now ≡ length things.now.spots }
    requires small { AreSmall powers.now }
    ensures attends { Attends things.now cells.old.time powers.now cells.old.cells cells.new.cells (IsNearOne things.now (IsNoted waves.now)) }
    ensures holding { IsHolding things.now cells.new }
    ensures time { cells.new.time ≡ cells.old.time }
{
    attend_near_each(things, powers, cells, waves.fallen());
    for power in 0..16u8 {
        attend_near_each(things, powers, cells, waves.risen(power));
    }
}
