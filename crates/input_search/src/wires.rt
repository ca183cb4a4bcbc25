//! The wires of a build, with what feeds each and what each reads without dust.

ghost use Rattle.std.specs.Prelude.{◌≡◌, ℕ, ◌+◌, ◌<◌, ◌≤◌, ◌||◌, true, [], ◌∷◌, ◌++◌, All, filter, map, IfOk, OnOk, IsTrue, length, slice_index, slice_set};
ghost use Rattle.std.specs.Option.{option_map_or};
ghost use Rattle.cell_numbers.specs.Numbers.{number_in};
ghost use Rattle.build.specs.Plan.{Plan, volume, place_of, block_at};
ghost use Rattle.wire_shape.specs.Shape.{wire_at, is_wire};
ghost use Rattle.wiring.specs.Reads.{is_source};
ghost use Rattle.input_search.specs.CellLists.{has_cell, cells_of};
ghost use Rattle.input_search.specs.Links.{direct_places};
ghost use Rattle.input_search.specs.Rows.{is_met, AreBelow};
ghost use Rattle.input_search.specs.Wiring.{wire_cells, wire_place, wire_number, feeder_numbers, read_cells, AreRows, IsFar, IsWiring};

use block_table::Block;
use build::Build;
use cell_numbers::CellNumbers;
use circuit::Pos;
use number_rows::Rows;
use rp_text::NoMemory;
use std::alloc::Global;
use wire_shape::{feeders_of, is_wire};
use wiring::push_sources;

/// The wires of a build, numbered in the order of places. What feeds a wire and what it reads is
/// found when a search first comes to it.
#[derive(Drop)]
pub(crate) struct Wiring {
    // The cells of the wires, by numbers and for their numbers.
    wires: Vec<u32>,
    pub(crate) cells: CellNumbers,
    // The cells of what can give power.
    pub(crate) sources: CellNumbers,
    // Of each wire one more than the index of its rows, and 0 where they weren't found yet.
    slots: Vec<u32>,
    found: u32,
    // Whether it is known of each wire that no source is within 15 steps.
    far: Vec<bool>,
    pub(crate) feeders: Rows,
    pub(crate) reads: Rows,
    // Filled anew for each wire.
    row: Vec<u32>,
    places: Vec<Pos>,
}

impl Wiring {
    pub(crate) fn new(alloc: Global, build: &Build) -> Result<Wiring, NoMemory>
        ensures { IfOk result (λ wiring. IsWiring build.now wiring) }
    {
        let mut wires = Vec::new(alloc);
        let mut cells = CellNumbers::new(alloc, build.cells())?;
        let mut sources = CellNumbers::new(alloc, build.cells())?;
        for cell in 0..build.cells() {
            list_wire(&mut wires, &mut cells, build, cell)?;
            list_source(&mut sources, build, cell)?;
        }
        let mut slots = Vec::new(alloc);
        slots.resize(wires.len(), 0)?;
        let mut far = Vec::new(alloc);
        far.resize(wires.len(), false)?;
        Ok(Wiring {
            wires,
            cells,
            sources,
            slots,
            found: 0,
            far,
            feeders: Rows::new(alloc),
            reads: Rows::new(alloc),
            row: Vec::new(alloc),
            places: Vec::new(alloc),
        })
    }

    /// The index of the rows of a wire, which are found if they weren't before.
    pub(crate) fn rows_of(&mut self, build: &Build, number: u32) -> Result<u32, NoMemory>
        requires wiring { IsWiring build.now self.old }
        requires number { number < length (wire_cells build.now) }
        ensures wiring { OnOk result (IsWiring build.now self.new) }
        ensures rows { IfOk result (λ row. AreRows build.now self.new.feeders self.new.reads number row) }
    {
        let slot = self.slots[number as usize];
        if slot == 0 {
            self.find_rows(build, number)
        } else {
            Ok(slot - 1)
        }
    }

    /// Whether it is known of a wire that no source is within 15 steps.
    pub(crate) fn is_far(&self, number: u32) -> bool
        requires { number < length self.now.far.items }
        ensures { result ≡ is_met self.now.far.items number }
    {
        self.far[number as usize]
    }

    /// Notes that no source is within 15 steps of these wires.
    pub(crate) fn note_far(&mut self, wires: &[u32])
        requires { AreBelow (length self.old.far.items) wires.now }
        ensures { (b : Plan) → IsWiring b self.old → ((number : ℕ) → has_cell wires.now number ≡ true → IsFar b number) → IsWiring b self.new }
    {
        put_all(&mut self.far, wires);
    }

    // Finds the rows of a wire.
    fn find_rows(&mut self, build: &Build, number: u32) -> Result<u32, NoMemory>
        requires wiring { IsWiring build.now self.old }
        requires number { number < length (wire_cells build.now) }
        ensures wiring { OnOk result (IsWiring build.now self.new) }
        ensures rows { IfOk result (λ row. AreRows build.now self.new.feeders self.new.reads number row) }
    {
        let row = self.found;
        let next = one_more(row)?;
        let wire = build.place(self.wires[number as usize] as usize);
        push_feeders(&mut self.feeders, &mut self.row, build, &self.cells, wire)?;
        push_reads(
            &mut self.reads,
            &mut self.row,
            &mut self.places,
            build,
            wire,
        )?;
        put(&mut self.slots, number as usize, next);
        self.found = next;
        Ok(row)
    }
}

// More rows than a number can tell count as want of memory.
fn one_more(count: u32) -> Result<u32, NoMemory>
    ensures { IfOk result (λ more. more ≡ count + 1) }
{
    match count.checked_add(1) {
        Some(more) => Ok(more),
        None => Err(NoMemory),
    }
}

fn put(slots: &mut Vec<u32>, index: usize, slot: u32)
    requires { index < length slots.old.items }
    ensures { slots.new.items ≡ slice_set slots.old.items index slot }
{
    slots[index] = slot;
}

fn put_one(far: &mut Vec<bool>, index: usize)
    requires { index < length far.old.items }
    ensures { far.new.items ≡ slice_set far.old.items index true }
{
    far[index] = true;
}

fn put_all(far: &mut Vec<bool>, wires: &[u32])
    requires { AreBelow (length far.old.items) wires.now }
    ensures size { length far.new.items ≡ length far.old.items }
    ensures far { (number : ℕ) → is_met far.new.items number ≡ (is_met far.old.items number || has_cell wires.now number) }
{
    for wire in wires {
        put_one(far, *wire as usize);
    }
}

// Whether a block can give power.
fn is_source(block: Block) -> bool
    ensures { result ≡ is_source block }
{
    match block {
        Block::Torch { .. }
        | Block::WallTorch { .. }
        | Block::RedstoneBlock
        | Block::Plate { .. }
        | Block::Weighted { .. }
        | Block::Lever { .. }
        | Block::Button { .. }
        | Block::Repeater { .. }
        | Block::Comparator { .. } => true,
        Block::Air
        | Block::Inert { .. }
        | Block::Slab { .. }
        | Block::Wire { .. }
        | Block::Lamp { .. }
        | Block::Trapdoor { .. }
        | Block::Container { .. }
        | Block::Composter { .. }
        | Block::Cauldron { .. }
        | Block::Cake { .. }
        | Block::Note { .. } => false,
    }
}

// Lists a cell in which a wire stands.
fn list_wire(
    wires: &mut Vec<u32>,
    cells: &mut CellNumbers,
    build: &Build,
    cell: usize,
) -> Result<(), NoMemory>
    requires inside { cell < volume build.now }
    requires rising { All (λ other. other < cell) cells.old }
    ensures wires { OnOk result (wires.new.items ≡ wires.old.items ++ filter (λ i. wire_at build.now (place_of build.now i)) (cell ∷ [])) }
    ensures cells { OnOk result (cells.new ≡ cells.old ++ filter (λ i. wire_at build.now (place_of build.now i)) (cell ∷ [])) }
{
    let _cells = build.cells();
    if is_wire(build.block_in(cell)) {
        wires.push(cell as u32)?;
        cells.push(cell)?;
    }
    Ok(())
}

// Lists a cell in which something stands that can give power.
fn list_source(sources: &mut CellNumbers, build: &Build, cell: usize) -> Result<(), NoMemory>
    requires inside { cell < volume build.now }
    requires rising { All (λ other. other < cell) sources.old }
    ensures { OnOk result (sources.new ≡ sources.old ++ filter (λ i. is_source (block_at build.now (place_of build.now i))) (cell ∷ [])) }
{
    let _cells = build.cells();
    if is_source(build.block_in(cell)) {
        sources.push(cell)?;
    }
    Ok(())
}

// Where a cell stands in a list that has it.
fn number_of(cells: &CellNumbers, cell: u32) -> u32
    requires few { length cells.now ≤ 16777216 }
    requires listed { IsTrue (has_cell cells.now cell) }
    ensures below { result < length cells.now }
    ensures there { slice_index cells.now result ≡ cell }
    ensures number { result ≡ option_map_or (λ n. n) (number_in cells.now cell) 0 }
{
    match cells.get(cell as usize) {
        Some(number) => number as u32,
        None => unreachable!(),
    }
}

/// The number of the wire at a place.
pub(crate) fn wire_number(build: &Build, cells: &CellNumbers, pos: Pos) -> u32
    requires wires { cells.now ≡ wire_cells build.now }
    requires wire { IsTrue (wire_at build.now pos) }
    ensures number { result ≡ wire_number build.now pos }
    ensures below { result < length (wire_cells build.now) }
    ensures place { wire_place build.now (wire_cells build.now) result ≡ pos }
{
    let _cells = build.cells();
    match build.cell(pos) {
        Some(cell) => number_of(cells, cell as u32),
        None => unreachable!(),
    }
}

// Appends the number of the wire at a place.
fn push_number(
    row: &mut Vec<u32>,
    build: &Build,
    cells: &CellNumbers,
    pos: Pos,
) -> Result<(), NoMemory>
    requires wires { cells.now ≡ wire_cells build.now }
    requires wire { IsTrue (wire_at build.now pos) }
    ensures { OnOk result (row.new.items ≡ row.old.items ++ map (wire_number build.now) (pos ∷ [])) }
{
    row.push(wire_number(build, cells, pos))?;
    Ok(())
}

// Appends the numbers of the feeders of the wire at a place.
fn push_feeder_numbers(
    row: &mut Vec<u32>,
    build: &Build,
    cells: &CellNumbers,
    wire: Pos,
) -> Result<(), NoMemory>
    requires wires { cells.now ≡ wire_cells build.now }
    requires wire { IsTrue (wire_at build.now wire) }
    ensures { OnOk result (row.new.items ≡ row.old.items ++ feeder_numbers build.now wire) }
{
    let feeders = feeders_of(build, wire);
    for index in 0..feeders.len() {
        push_number(row, build, cells, feeders.get(index))?;
    }
    Ok(())
}

// Puts the numbers of the feeders of the wire at a place behind the other rows.
fn push_feeders(
    rows: &mut Rows,
    row: &mut Vec<u32>,
    build: &Build,
    cells: &CellNumbers,
    wire: Pos,
) -> Result<(), NoMemory>
    requires wires { cells.now ≡ wire_cells build.now }
    requires wire { IsTrue (wire_at build.now wire) }
    ensures { OnOk result (rows.new ≡ rows.old ++ feeder_numbers build.now wire ∷ []) }
{
    row.clear();
    push_feeder_numbers(row, build, cells, wire)?;
    rows.push(row)
}

fn push_cell(cells: &mut Vec<u32>, build: &Build, pos: Pos) -> Result<(), NoMemory>
    ensures { OnOk result (cells.new.items ≡ cells.old.items ++ cells_of build.now (pos ∷ [])) }
{
    let _cells = build.cells();
    if let Some(cell) = build.cell(pos) {
        cells.push(cell as u32)?;
    }
    Ok(())
}

// Appends the cells of these places.
fn push_cells(cells: &mut Vec<u32>, build: &Build, places: &[Pos]) -> Result<(), NoMemory>
    ensures { OnOk result (cells.new.items ≡ cells.old.items ++ cells_of build.now places.now) }
{
    for pos in places {
        push_cell(cells, build, *pos)?;
    }
    Ok(())
}

// Appends the cells of what the wire at a place reads without dust.
fn push_read_cells(
    cells: &mut Vec<u32>,
    places: &mut Vec<Pos>,
    build: &Build,
    wire: Pos,
) -> Result<(), NoMemory>
    requires { IsTrue (wire_at build.now wire) }
    ensures { OnOk result (cells.new.items ≡ cells.old.items ++ read_cells build.now wire) }
{
    places.clear();
    push_sources(places, build, wire)?;
    push_cells(cells, build, places)
}

// Puts the cells of what the wire at a place reads without dust behind the other rows.
fn push_reads(
    rows: &mut Rows,
    row: &mut Vec<u32>,
    places: &mut Vec<Pos>,
    build: &Build,
    wire: Pos,
) -> Result<(), NoMemory>
    requires { IsTrue (wire_at build.now wire) }
    ensures { OnOk result (rows.new ≡ rows.old ++ read_cells build.now wire ∷ []) }
{
    row.clear();
    push_read_cells(row, places, build, wire)?;
    rows.push(row)
}
