//! Places and things within two steps of a place.

ghost use Rattle.std.specs.Prelude.{◌≡◌, ◌≤◌, ◌<◌, ℕ, Some, true, Contains, length, take};
ghost use Rattle.circuit.specs.declared.Pos.{Pos};
ghost use Rattle.build.specs.Place.{beside};
ghost use Rattle.build.specs.Plan.{IsNear};
ghost use Rattle.wire_net.specs.WaveSteps.{AreBelow};
ghost use Rattle.replay_engine.specs.Near.{IsNearby, nearby, two_beside};
ghost use Rattle.replay_engine.specs.Running.{spot};
ghost use Rattle.replay_engine.specs.Things.{number_at};
ghost use Rattle.replay_engine.specs.WireThings.{NotesWire};
ghost use Rattle.wire_shape.specs.Shape.{wire_at};

use crate::things::Things;
use crate::wires::{number_of, wire_there};
use block_table::Side;
use build::beside;
use circuit::Pos;

// The place after a step.
fn step(pos: Pos, side: Side) -> Pos
    requires { IsNear 0 pos }
    ensures { result ≡ beside side pos }
{
    beside(pos, side)
}

// The place after two steps.
fn two_steps(pos: Pos, first: Side, second: Side) -> Pos
    requires { IsNear 0 pos }
    ensures { result ≡ two_beside first second pos }
{
    beside(beside(pos, first), second)
}

/// The places within two steps of a place, each once.
#[tactic(auto, unfolding(crate::specs::Near::nearby))]
pub(crate) fn nearby(pos: Pos) -> [Pos; 25]
    requires { IsNear 0 pos }
    ensures { result ≡ nearby pos }
{
    [
        pos,
        step(pos, Side::Down),
        step(pos, Side::Up),
        step(pos, Side::North),
        step(pos, Side::South),
        step(pos, Side::West),
        step(pos, Side::East),
        two_steps(pos, Side::Down, Side::Down),
        two_steps(pos, Side::Up, Side::Up),
        two_steps(pos, Side::North, Side::North),
        two_steps(pos, Side::South, Side::South),
        two_steps(pos, Side::West, Side::West),
        two_steps(pos, Side::East, Side::East),
        two_steps(pos, Side::Down, Side::North),
        two_steps(pos, Side::Down, Side::South),
        two_steps(pos, Side::Down, Side::West),
        two_steps(pos, Side::Down, Side::East),
        two_steps(pos, Side::Up, Side::North),
        two_steps(pos, Side::Up, Side::South),
        two_steps(pos, Side::Up, Side::West),
        two_steps(pos, Side::Up, Side::East),
        two_steps(pos, Side::North, Side::West),
        two_steps(pos, Side::North, Side::East),
        two_steps(pos, Side::South, Side::West),
        two_steps(pos, Side::South, Side::East),
    ]
}

// Puts the number of the wire at a place, if one stands there, behind so many numbers. It gives how
// many there are then.
fn note_wire(things: &Things, pos: Pos, wires: &mut [u32], count: usize) -> usize
    requires { count < length wires.old }
    ensures { NotesWire things.now pos wires.old count wires.new result }
{
    if wire_there(things, pos) {
        wires[count] = number_of(things, pos);
        count + 1
    } else {
        count
    }
}

/// Writes the numbers of the wires within two steps of a thing, and gives how many there are.
pub(crate) fn near_wires(things: &Things, number: usize, wires: &mut [u32]) -> usize
    requires inside { number < length things.now.spots }
    requires room { length wires.old ≡ 25 }
    ensures few { result ≤ 25 }
    ensures listed { (pos : Pos) (other : ℕ) → IsNearby (spot things.now number) pos → wire_at things.now.plan pos ≡ true → number_at things.now pos ≡ Some other → Contains (take result wires.new) other }
    ensures below { AreBelow (length things.now.spots) (take result wires.new) }
{
    let _ = things.count();
    let mut count = 0;
    for pos in nearby(things.spot(number)) {
        count = note_wire(things, pos, wires, count);
    }
    count
}
