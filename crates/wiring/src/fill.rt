//! Fills the rows of taps of all things.

ghost use Rattle.std.specs.Prelude.{◌≡◌, ◌∷◌, [], ◌++◌, IfOk, OnOk, IsTrue, map};
ghost use Rattle.build.specs.Plan.{in_box};
ghost use Rattle.wire_shape.specs.Feeders.{feeders};
ghost use Rattle.wire_shape.specs.Shape.{wire_at};
ghost use Rattle.wiring.specs.Reads.{tap_place, back_places, side_places, direct_places};
ghost use Rattle.wiring.specs.Things.{number_of, spot};
ghost use Rattle.wiring.specs.Wired.{numbers_of, back_row, side_row, direct_row, feeder_row, row_of};

use crate::readers::{push_reader_side_taps, push_reader_taps};
use crate::taps::{Tap, push_sources};
use crate::things::Things;
use circuit::Pos;
use number_rows::Rows;
use rp_text::NoMemory;
use std::alloc::Global;
use wire_shape::{feeders_of, wire_at};

/// What a row has: the taps of a back, those of the sides, what gives a wire power without dust, or
/// the feeders of a wire.
#[derive(Clone, Copy)]
pub enum Kind {
    Back,
    Side,
    Direct,
    Feeders,
}

// The number of a thing, 0 where none stands.
fn number_of(things: &Things, pos: Pos) -> u32
    ensures { result ≡ number_of things.now pos }
{
    let _ = things.count();
    match things.number(pos) {
        Some(number) => number as u32,
        None => 0,
    }
}

fn push_number(row: &mut Vec<u32>, things: &Things, pos: Pos) -> Result<(), NoMemory>
    ensures { OnOk result (row.new.items ≡ row.old.items ++ numbers_of things.now (pos ∷ [])) }
{
    row.push(number_of(things, pos))?;
    Ok(())
}

fn place_of(tap: Tap) -> Pos
    ensures { result ≡ tap_place tap }
{
    match tap {
        Tap::Direct(pos) | Tap::Wired(pos) => pos,
    }
}

// Appends the numbers of taps.
fn push_taps(row: &mut Vec<u32>, things: &Things, taps: &[Tap]) -> Result<(), NoMemory>
    ensures { OnOk result (row.new.items ≡ row.old.items ++ numbers_of things.now (map tap_place taps.now)) }
{
    for tap in taps {
        push_number(row, things, place_of(*tap))?;
    }
    Ok(())
}

// Appends the numbers of what stands at these places.
fn push_places(row: &mut Vec<u32>, things: &Things, places: &[Pos]) -> Result<(), NoMemory>
    ensures { OnOk result (row.new.items ≡ row.old.items ++ numbers_of things.now places.now) }
{
    for pos in places {
        push_number(row, things, *pos)?;
    }
    Ok(())
}

fn push_back(
    row: &mut Vec<u32>,
    taps: &mut Vec<Tap>,
    things: &Things,
    pos: Pos,
) -> Result<(), NoMemory>
    requires { IsTrue (in_box things.now.plan pos) }
    ensures { OnOk result (row.new.items ≡ row.old.items ++ numbers_of things.now (back_places things.now.plan pos)) }
{
    taps.clear();
    push_reader_taps(taps, things.build(), pos)?;
    push_taps(row, things, taps)
}

fn push_sides(
    row: &mut Vec<u32>,
    taps: &mut Vec<Tap>,
    things: &Things,
    pos: Pos,
) -> Result<(), NoMemory>
    requires { IsTrue (in_box things.now.plan pos) }
    ensures { OnOk result (row.new.items ≡ row.old.items ++ side_row things.now pos) }
{
    taps.clear();
    push_reader_side_taps(taps, things.build(), pos)?;
    push_taps(row, things, taps)
}

fn push_direct(
    row: &mut Vec<u32>,
    sources: &mut Vec<Pos>,
    things: &Things,
    pos: Pos,
) -> Result<(), NoMemory>
    requires { IsTrue (in_box things.now.plan pos) }
    ensures { OnOk result (row.new.items ≡ row.old.items ++ numbers_of things.now (direct_places things.now.plan pos)) }
{
    sources.clear();
    push_sources(sources, things.build(), pos)?;
    push_places(row, things, sources)
}

fn push_feeders(row: &mut Vec<u32>, things: &Things, pos: Pos) -> Result<(), NoMemory>
    requires { IsTrue (wire_at things.now.plan pos) }
    ensures { OnOk result (row.new.items ≡ row.old.items ++ numbers_of things.now (feeders things.now.plan pos)) }
{
    let feeders = feeders_of(things.build(), pos);
    for index in 0..feeders.len() {
        push_number(row, things, feeders.get(index))?;
    }
    Ok(())
}

// Appends the row of what stands at a place.
fn push_row(
    row: &mut Vec<u32>,
    taps: &mut Vec<Tap>,
    sources: &mut Vec<Pos>,
    things: &Things,
    kind: Kind,
    pos: Pos,
) -> Result<(), NoMemory>
    requires { IsTrue (in_box things.now.plan pos) }
    ensures { OnOk result (row.new.items ≡ row.old.items ++ row_of things.now kind pos) }
{
    let wire = wire_at(things.build(), pos);
    match kind {
        Kind::Back => if wire {
            Ok(())
        } else {
            push_back(row, taps, things, pos)
        },
        Kind::Side => push_sides(row, taps, things, pos),
        Kind::Direct => if wire {
            push_direct(row, sources, things, pos)
        } else {
            Ok(())
        },
        Kind::Feeders => if wire {
            push_feeders(row, things, pos)
        } else {
            Ok(())
        },
    }
}

/// The rows of all things.
pub fn rows_of(alloc: Global, things: &Things, kind: Kind) -> Result<Rows, NoMemory>
    ensures { IfOk result (λ rows. rows ≡ map (row_of things.now kind) things.now.spots) }
{
    let mut rows = Rows::new(alloc);
    let mut row = Vec::new(alloc);
    let mut taps = Vec::new(alloc);
    let mut sources = Vec::new(alloc);
    for number in 0..things.count() {
        row.clear();
        push_row(
            &mut row,
            &mut taps,
            &mut sources,
            things,
            kind,
            things.spot(number),
        )?;
        rows.push(&row)?;
    }
    Ok(rows)
}
