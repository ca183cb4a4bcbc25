//! The links of a wire tap: what can be read along its feeders, one distance after another.

ghost use Rattle.std.specs.Prelude.{◌≡◌, ℕ, ◌+◌, ◌<◌, ◌≤◌, [], ◌++◌, All, IfOk, OnOk, IsTrue, length, map};
ghost use Rattle.std.specs.List.{flat_map};
ghost use Rattle.wire_shape.specs.Shape.{wire_at};
ghost use Rattle.input_search.specs.CellLists.{kept_cells, places_of, AreCells};
ghost use Rattle.input_search.specs.Links.{at_weight, links_below, wire_links};
ghost use Rattle.input_search.specs.Rows.{AreBelow, Gathers, GathersCells};
ghost use Rattle.input_search.specs.Wiring.{wire_cells, source_cells, wire_place, fed_row, read_row, IsSearch, IsWiring};

use crate::met::{Met, gather_cells, gather_one, gather_row};
use crate::wires::{Wiring, wire_number};
use build::Build;
use circuit::Pos;
use rp_text::NoMemory;
use std::alloc::Global;
use std::mem;

/// A link from the node of a place.
#[derive(Clone, Copy)]
pub(crate) struct Origin {
    pub(crate) place: Pos,
    pub(crate) weight: u8,
}

// How many distances are looked at: a link of a weight of 16 would bring nothing.
const DISTANCES: u8 = 16;

// How many more distances are looked at where no link was found. What lies around the first wire
// is as far from any source as these show.
const FARTHER: u8 = 15;

// Puts the cells in order, each once.
fn put_in_order(cells: &mut Vec<u32>)
    ensures { (n : ℕ) → All (λ cell. cell < n) cells.old.items → cells.new.items ≡ kept_cells n cells.old.items }
{
    cells.sort_unstable();
    cells.dedup();
}

// Appends a link from the place of each of these cells.
fn push_links(
    links: &mut Vec<Origin>,
    build: &Build,
    cells: &[u32],
    weight: u8,
) -> Result<(), NoMemory>
    requires { AreCells build.now cells.now }
    ensures { OnOk result (links.new.items ≡ links.old.items ++ map (at_weight weight) (places_of build.now cells.now)) }
{
    for cell in cells {
        links.push(Origin {
            place: build.place(*cell as usize),
            weight,
        })?;
    }
    Ok(())
}

// Meets the feeders of a wire, and what it reads.
fn look_at(
    next: &mut Vec<u32>,
    met: &mut Met,
    cells: &mut Vec<u32>,
    linked: &mut Met,
    build: &Build,
    wiring: &mut Wiring,
    wire: u32,
) -> Result<(), NoMemory>
    requires wiring { IsWiring build.now wiring.old }
    requires wire { wire < length (wire_cells build.now) }
    requires met { length met.old ≡ length (wire_cells build.now) }
    requires linked { length linked.old ≡ length (source_cells build.now) }
    ensures wiring { OnOk result (IsWiring build.now wiring.new) }
    ensures fed { OnOk result (Gathers (fed_row build.now wire) met.old met.new next.old.items next.new.items) }
    ensures read { OnOk result (GathersCells (source_cells build.now) (read_row build.now wire) linked.old linked.new cells.old.items cells.new.items) }
{
    let row = wiring.rows_of(build, wire)? as usize;
    gather_cells(cells, linked, &wiring.sources, wiring.reads.row(row))?;
    gather_row(next, met, wiring.feeders.row(row))
}

// Meets the feeders of these wires, and what they read.
fn look_around(
    next: &mut Vec<u32>,
    met: &mut Met,
    cells: &mut Vec<u32>,
    linked: &mut Met,
    build: &Build,
    wiring: &mut Wiring,
    wires: &[u32],
) -> Result<(), NoMemory>
    requires wiring { IsWiring build.now wiring.old }
    requires wires { AreBelow (length (wire_cells build.now)) wires.now }
    requires met { length met.old ≡ length (wire_cells build.now) }
    requires linked { length linked.old ≡ length (source_cells build.now) }
    ensures wiring { OnOk result (IsWiring build.now wiring.new) }
    ensures fed { OnOk result (Gathers (flat_map (fed_row build.now) wires.now) met.old met.new next.old.items next.new.items) }
    ensures read { OnOk result (GathersCells (source_cells build.now) (flat_map (read_row build.now) wires.now) linked.old linked.new cells.old.items cells.new.items) }
{
    for wire in wires {
        look_at(next, met, cells, linked, build, wiring, *wire)?;
    }
    Ok(())
}

/// The lists that a search fills, kept from one search to the next.
#[derive(Drop)]
pub(crate) struct Search {
    // The number of the wire from which it began.
    start: u32,
    pub(crate) links: Vec<Origin>,
    wires: Vec<u32>,
    next: Vec<u32>,
    cells: Vec<u32>,
    met: Met,
    linked: Met,
}

impl Search {
    pub(crate) fn new(alloc: Global) -> Search {
        Search {
            start: 0,
            links: Vec::new(alloc),
            wires: Vec::new(alloc),
            next: Vec::new(alloc),
            cells: Vec::new(alloc),
            met: Met::new(alloc),
            linked: Met::new(alloc),
        }
    }
}

// Begins a search from a wire.
fn begin(search: &mut Search, build: &Build, wiring: &Wiring, number: u32) -> Result<(), NoMemory>
    requires wiring { IsWiring build.now wiring.now }
    requires number { number < length (wire_cells build.now) }
    ensures at { OnOk result (IsSearch build.now 0 search.new) }
    ensures start { OnOk result (search.new.start ≡ number) }
{
    let Search {
        start,
        links,
        wires,
        met,
        linked,
        ..
    } = search;
    *start = number;
    links.clear();
    wires.clear();
    met.start(wiring.cells.len())?;
    linked.start(wiring.sources.len())?;
    gather_one(wires, met, number)
}

// Adds the links of one more distance, and puts those feeders of the wires that weren't met before
// in place of these.
fn go_on(
    search: &mut Search,
    build: &Build,
    wiring: &mut Wiring,
    distance: u8,
) -> Result<(), NoMemory>
    requires wiring { IsWiring build.now wiring.old }
    requires at { IsSearch build.now distance search.old }
    ensures wiring { OnOk result (IsWiring build.now wiring.new) }
    ensures at { OnOk result (IsSearch build.now (distance + 1) search.new) }
    ensures start { OnOk result (search.new.start ≡ search.old.start) }
{
    let Search {
        links,
        wires,
        next,
        cells,
        met,
        linked,
        ..
    } = search;
    next.clear();
    cells.clear();
    look_around(next, met, cells, linked, build, wiring, wires)?;
    put_in_order(cells);
    push_links(links, build, cells, distance)?;
    mem::swap(wires, next);
    Ok(())
}

// Goes on from a search that found no link, and says at how many more distances there is none.
fn go_farther(search: &mut Search, build: &Build, wiring: &mut Wiring) -> Result<u8, NoMemory>
    requires wiring { IsWiring build.now wiring.old }
    requires at { IsSearch build.now 16 search.old }
    requires none { search.old.links.items ≡ [] }
    ensures wiring { OnOk result (IsWiring build.now wiring.new) }
    ensures start { OnOk result (search.new.start ≡ search.old.start) }
    ensures few { IfOk result (λ steps. steps ≤ 15) }
    ensures steps { IfOk result (λ steps. links_below build.now (wire_place build.now (wire_cells build.now) search.old.start) (16 + steps) ≡ []) }
{
    for steps in 0..FARTHER {
        go_on(search, build, wiring, DISTANCES + steps)?;
        if !search.links.is_empty() {
            return Ok(steps);
        }
    }
    Ok(FARTHER)
}

// Notes of the wires that the first one reaches in so many steps that no source is near.
fn note_around(
    search: &mut Search,
    build: &Build,
    wiring: &mut Wiring,
    number: u32,
    steps: u8,
) -> Result<(), NoMemory>
    requires wiring { IsWiring build.now wiring.old }
    requires number { number < length (wire_cells build.now) }
    requires few { steps ≤ 15 }
    requires steps { links_below build.now (wire_place build.now (wire_cells build.now) number) (16 + steps) ≡ [] }
    ensures { OnOk result (IsWiring build.now wiring.new) }
{
    begin(search, build, wiring, number)?;
    for distance in 0..steps + 1 {
        wiring.note_far(&search.wires);
        go_on(search, build, wiring, distance)?;
    }
    Ok(())
}

// Notes around the first wire of a search that found no link which wires have none either.
fn note_far(search: &mut Search, build: &Build, wiring: &mut Wiring) -> Result<(), NoMemory>
    requires wiring { IsWiring build.now wiring.old }
    requires at { IsSearch build.now 16 search.old }
    requires none { search.old.links.items ≡ [] }
    ensures wiring { OnOk result (IsWiring build.now wiring.new) }
    ensures none { OnOk result (search.new.links.items ≡ []) }
{
    let number = search.start;
    let steps = go_farther(search, build, wiring)?;
    note_around(search, build, wiring, number, steps)?;
    search.links.clear();
    Ok(())
}

// Finds the links of a wire of which it isn't known that it has none.
fn search_from(
    search: &mut Search,
    build: &Build,
    wiring: &mut Wiring,
    number: u32,
) -> Result<(), NoMemory>
    requires wiring { IsWiring build.now wiring.old }
    requires number { number < length (wire_cells build.now) }
    ensures wiring { OnOk result (IsWiring build.now wiring.new) }
    ensures links { OnOk result (search.new.links.items ≡ wire_links build.now (wire_place build.now (wire_cells build.now) number)) }
{
    begin(search, build, wiring, number)?;
    for distance in 0..DISTANCES {
        go_on(search, build, wiring, distance)?;
    }
    if search.links.is_empty() {
        note_far(search, build, wiring)
    } else {
        Ok(())
    }
}

/// Finds the links of the wire tap at a place.
pub(crate) fn find_links(
    search: &mut Search,
    build: &Build,
    wiring: &mut Wiring,
    wire: Pos,
) -> Result<(), NoMemory>
    requires wiring { IsWiring build.now wiring.old }
    requires wire { IsTrue (wire_at build.now wire) }
    ensures wiring { OnOk result (IsWiring build.now wiring.new) }
    ensures links { OnOk result (search.new.links.items ≡ wire_links build.now wire) }
{
    let number = wire_number(build, &wiring.cells, wire);
    if wiring.is_far(number) {
        search.links.clear();
        Ok(())
    } else {
        search_from(search, build, wiring, number)
    }
}
