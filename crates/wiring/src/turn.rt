//! Turns rows round: each tap gets a row of the readers that tap it.

ghost use Rattle.std.specs.Prelude.{◌≡◌, ◌<◌, ◌≤◌, ◌⊎◌, ℕ, List, [], length, replicate, IfOk, OnOk};
ghost use Rattle.wire_net.specs.Listed.{list_at};
ghost use Rattle.wire_net.specs.WaveSteps.{AreBelow, Has};
ghost use Rattle.wiring.specs.Wired.{AllBelow, Turns};

use number_rows::{Lists, Rows, rows_from};
use rp_text::NoMemory;
use std::alloc::Global;

// Puts a reader into the list of each of its taps.
fn turn_row(lists: &mut Lists, row: &[u32], reader: u32) -> Result<(), NoMemory>
    requires reader { reader < length lists.old }
    requires below { AreBelow (length lists.old) row.now }
    ensures { OnOk result (Turns lists.old lists.new (λ r tap. (r ≡ reader) × Has row.now tap)) }
{
    for tap in row {
        lists.push(*tap as usize, reader)?;
    }
    Ok(())
}

// Puts each reader into the lists of its taps.
fn turn_rows(lists: &mut Lists, rows: &Rows) -> Result<(), NoMemory>
    requires whole { length rows.now ≡ length lists.old }
    requires few { length lists.old ≤ 16777216 }
    requires below { AllBelow (length lists.old) rows.now }
    ensures { OnOk result (Turns lists.old lists.new (λ reader tap. Has (list_at rows.now reader) tap)) }
{
    for number in 0..lists.count() {
        turn_row(lists, rows.row(number), number as u32)?;
    }
    Ok(())
}

// Puts each number into its own list.
fn push_itself(lists: &mut Lists) -> Result<(), NoMemory>
    requires few { length lists.old ≤ 16777216 }
    ensures { OnOk result (Turns lists.old lists.new (λ r tap. (r < length lists.old) × (tap ≡ r))) }
{
    for number in 0..lists.count() {
        lists.push(number, number as u32)?;
    }
    Ok(())
}

/// For each tap the readers that have it in one of their two rows.
pub fn readers_of(alloc: Global, back: &Rows, side: &Rows, count: usize) -> Result<Rows, NoMemory>
    requires few { count ≤ 16777216 }
    requires back_whole { length back.now ≡ count }
    requires side_whole { length side.now ≡ count }
    requires back_below { AllBelow count back.now }
    requires side_below { AllBelow count side.now }
    ensures { IfOk result (λ rows. Turns (replicate count []) rows (λ reader tap. Has (list_at back.now reader) tap ⊎ Has (list_at side.now reader) tap)) }
{
    let mut lists = Lists::new(alloc, count)?;
    turn_rows(&mut lists, back)?;
    turn_rows(&mut lists, side)?;
    let rows = rows_from(alloc, &lists)?;
    Ok(rows)
}

/// For each thing itself, and the wires that have it in their row.
pub fn driven_of(alloc: Global, direct: &Rows, count: usize) -> Result<Rows, NoMemory>
    requires few { count ≤ 16777216 }
    requires whole { length direct.now ≡ count }
    requires below { AllBelow count direct.now }
    ensures { IfOk result (λ rows. Turns (replicate count []) rows (λ reader tap. ((reader < length (replicate {A = List ℕ} count [])) × (tap ≡ reader)) ⊎ Has (list_at direct.now reader) tap)) }
{
    let mut lists = Lists::new(alloc, count)?;
    push_itself(&mut lists)?;
    turn_rows(&mut lists, direct)?;
    let rows = rows_from(alloc, &lists)?;
    Ok(rows)
}
