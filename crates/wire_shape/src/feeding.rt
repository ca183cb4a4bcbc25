//! Which wires feed a wire.

ghost use Rattle.std.specs.Prelude.{◌≡◌, ◌+◌, ◌<◌, ◌≤◌, [], ◌++◌, IsTrue, length, slice_get, Some};
ghost use Rattle.std.specs.Option.{option_to_list};
ghost use Rattle.wire_shape.specs.Shape.{wire_at};
ghost use Rattle.wire_shape.specs.Feeders.{fed_from_below, fed_from_beside, fed_from_above, feeders};

use crate::connections::{solid_at, wire_at};
use block_table::Side;
use build::{Build, beside};
use circuit::Pos;
use std::marker::Model;

// The horizontal sides, in the order of the places there.
const AROUND: [Side; 4] = [Side::North, Side::West, Side::East, Side::South];

/// The wires that feed a wire, in the order of places: at most 12.
#[derive(Drop)]
pub struct Feeders {
    places: [Pos; 12],
    count: usize,
}

impl Model for Feeders {
    ghost use Rattle.std.specs.Prelude.{List, take, length, ◌≡◌, ◌≤◌};
    ghost use Rattle.circuit.specs.declared.Pos.{Pos};

    ghost Value = { List Pos };

    ghost view = { λ f. take f.count f.places };

    ghost invariant = { λ f. (length f.places ≡ 12) × (f.count ≤ 12) };
}

impl Feeders {
    fn new() -> Feeders
        ensures { result ≡ [] }
    {
        Feeders {
            places: [Pos { x: 0, y: 0, z: 0 }; 12],
            count: 0,
        }
    }

    // Adds the place, if there is one.
    fn add(&mut self, place: Option<Pos>)
        requires { length self.old < 12 }
        ensures added { self.new ≡ self.old ++ option_to_list place }
        ensures grows { length self.new ≤ length self.old + 1 }
    {
        if let Some(place) = place {
            self.places[self.count] = place;
            self.count += 1;
        }
    }

    /// How many there are.
    pub fn len(&self) -> usize
        ensures len { result ≡ length self.now }
        ensures most { result ≤ 12 }
    {
        self.count
    }

    /// The feeder of this index, 0 first.
    pub fn get(&self, index: usize) -> Pos
        requires { index < length self.now }
        ensures { slice_get self.now index ≡ Some result }
    {
        let _ = &self.count;
        self.places[index]
    }
}

// The wire below a neighbour that isn't solid.
#[tactic(auto, using(crate::specs::WirePlaces::near_first, crate::specs::WirePlaces::near_second), unfolding(crate::specs::Feeders::fed_from_below))]
fn fed_from_below(build: &Build, pos: Pos, side: Side) -> Option<Pos>
    requires { IsTrue (wire_at build.now pos) }
    ensures { result ≡ fed_from_below build.now pos side }
{
    let _ = build.width();
    let neighbour = beside(pos, side);
    let below = beside(neighbour, Side::Down);
    (!solid_at(build, neighbour) && wire_at(build, below)).then_some(below)
}

// A neighbour that is a wire.
#[tactic(auto, using(crate::specs::WirePlaces::near_first), unfolding(crate::specs::Feeders::fed_from_beside))]
fn fed_from_beside(build: &Build, pos: Pos, side: Side) -> Option<Pos>
    requires { IsTrue (wire_at build.now pos) }
    ensures { result ≡ fed_from_beside build.now pos side }
{
    let _ = build.width();
    let neighbour = beside(pos, side);
    wire_at(build, neighbour).then_some(neighbour)
}

// The wire above a solid neighbour, unless a solid block stands above the wire that is fed.
#[tactic(auto, using(crate::specs::WirePlaces::near_first, crate::specs::WirePlaces::near_second), unfolding(crate::specs::Feeders::fed_from_above))]
fn fed_from_above(build: &Build, pos: Pos, side: Side) -> Option<Pos>
    requires { IsTrue (wire_at build.now pos) }
    ensures { result ≡ fed_from_above build.now pos side }
{
    let _ = build.width();
    let neighbour = beside(pos, side);
    let above = beside(neighbour, Side::Up);
    let is_open = solid_at(build, neighbour) && !solid_at(build, beside(pos, Side::Up));
    (is_open && wire_at(build, above)).then_some(above)
}

/// The wires that feed the wire at a place.
#[tactic(auto, unfolding(crate::specs::Feeders::feeders))]
pub fn feeders_of(build: &Build, pos: Pos) -> Feeders
    requires { IsTrue (wire_at build.now pos) }
    ensures { result ≡ feeders build.now pos }
{
    let mut feeders = Feeders::new();
    'below: for side in AROUND {
        feeders.add(fed_from_below(build, pos, side));
    }
    'beside: for side in AROUND {
        feeders.add(fed_from_beside(build, pos, side));
    }
    'above: for side in AROUND {
        feeders.add(fed_from_above(build, pos, side));
    }
    feeders
}
