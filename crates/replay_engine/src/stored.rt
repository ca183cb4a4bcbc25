//! What a build holds before the start.

ghost use Rattle.std.specs.Prelude.{◌≡◌, [], ◌∷◌, List, All, IfOk, length};
ghost use Rattle.build.specs.declared.Pending.{Pending};
ghost use Rattle.build.specs.Roles.{stored};
ghost use Rattle.cell_counts.specs.Held.{IsSoon};
ghost use Rattle.replay_engine.specs.Things.{state_by};
ghost use Rattle.replay_engine.specs.Stores.{AreStored, stored_with};

use crate::things::Things;
use build::Pending;
use cell_counts::NOTHING;
use circuit::{Cell, Pos};
use power_rules::stored_value;
use rp_text::NoMemory;
use std::alloc::Global;

// What a place holds before the start, its tick left out.
#[tactic(auto, unfolding(crate::specs::Stores::stored_with))]
fn without_tick(things: &Things, pos: Pos) -> Cell
    ensures { result ≡ stored_with things.now [] pos }
{
    match things.role(pos) {
        Some(_) => Cell {
            value: stored_value(things.build(), pos),
            due: 0,
            priority: 0,
        },
        None => NOTHING,
    }
}

// Gives a thing its pending tick.
fn put_tick(things: &Things, tick: Pending, cells: &mut [Cell])
    requires { length cells.old ≡ length things.now.spots }
    ensures { (rest : List Pending) → AreStored things.now rest cells.old → AreStored things.now (tick ∷ rest) cells.new }
{
    let _ = things.count();
    let Some(_component) = things.role(tick.pos) else {
        return;
    };
    let Some(number) = things.number(tick.pos) else {
        return;
    };
    let value = cells[number].value;
    cells[number] = Cell {
        value,
        due: u64::from(tick.due),
        priority: tick.priority,
    };
}

// Gives the things their pending ticks.
fn put_ticks(things: &Things, cells: &mut [Cell])
    requires whole { length cells.old ≡ length things.now.spots }
    requires stored { AreStored things.now [] cells.old }
    ensures { AreStored things.now things.now.plan.pending cells.new }
{
    let pending = things.build().pending();
    for index in (0..pending.len()).rev() {
        put_tick(things, pending[index], cells);
    }
}

/// What each thing stores.
pub(crate) fn stored_cells(alloc: Global, things: &Things) -> Result<Vec<Cell>, NoMemory>
    ensures whole { IfOk result (λ cells. length cells.items ≡ length things.now.spots) }
    ensures stored { IfOk result (λ cells. state_by things.now 0 cells.items ≡ record { time = 0; cells = stored things.now.plan things.now.marks }) }
    ensures soon { IfOk result (λ cells. All (IsSoon 0) cells.items) }
{
    let mut cells = Vec::with_capacity(alloc, things.count())?;
    for number in 0..things.count() {
        cells.push(without_tick(things, things.spot(number)))?;
    }
    put_ticks(things, &mut cells);
    Ok(cells)
}
