//! What the places of a running build hold.

ghost use Rattle.std.specs.Prelude.{◌≡◌};
ghost use Rattle.wiring.specs.Things.{held, nothing};

use crate::valued::ValuedCells;
use cell_queue::NOTHING;
use circuit::{Cell, Pos};
use wiring::Things;

/// What a place holds.
#[tactic(auto, unfolding(wiring::specs::Things::held))]
pub(crate) fn cell_at(things: &Things, cells: &ValuedCells, pos: Pos) -> Cell
    ensures { result ≡ held things.now cells.now.cells nothing pos }
{
    match things.number(pos) {
        Some(number) => cells.cell(number),
        None => NOTHING,
    }
}
