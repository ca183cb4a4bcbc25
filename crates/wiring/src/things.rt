//! The things of a build.

ghost use Rattle.std.specs.Prelude.{◌≡◌, ◌≤◌, ◌<◌, ◌+◌, IfOk, OnOk, IfSome, length};
ghost use Rattle.build.specs.Plan.{volume};
ghost use Rattle.build.specs.Outputs.{outputs};
ghost use Rattle.build.specs.Roles.{role_at};
ghost use Rattle.wiring.specs.Things.{IsNumbered, is_thing, number_at, IsNumberedTo};
ghost use Rattle.wiring.specs.Things.{spot};

use block_table::Block;
use build::{Build, Marks, OutPlace, outputs};
use cell_numbers::CellNumbers;
use circuit::{Component, Pos};
use power_rules::component;
use rp_text::NoMemory;
use std::alloc::Global;
use std::marker::Model;
use wire_shape::is_wire;

/// The things of a build, which are its wires, its components and its blocks of redstone. Each has
/// a number, from 0 on in order of places.
#[derive(Drop)]
pub struct Things {
    build: Build,
    marks: Marks,
    spots: Vec<Pos>,
    // The cells in which they stand.
    numbers: CellNumbers,
}

impl Model for Things {
    ghost use Rattle.wiring.specs.Things.{Numbered, IsNumbered};

    ghost Value = { Numbered };

    ghost view = { λ t. record { plan = t.build; marks = t.marks; spots = t.spots.items; cells = t.numbers } };

    ghost invariant = { λ t. IsNumbered (record { plan = t.build; marks = t.marks; spots = t.spots.items; cells = t.numbers }) };
}

fn is_thing(block: Block) -> bool
    ensures { result ≡ is_thing block }
{
    is_wire(block) || component(block, false).is_some() || matches!(block, Block::RedstoneBlock)
}

// Numbers what stands in one cell more.
fn number_cell(
    build: &Build,
    cell: usize,
    spots: &mut Vec<Pos>,
    numbers: &mut CellNumbers,
) -> Result<(), NoMemory>
    requires inside { cell < volume build.now }
    requires below { IsNumberedTo build.now cell spots.old.items numbers.old }
    ensures { OnOk result (IsNumberedTo build.now (cell + 1) spots.new.items numbers.new) }
{
    let _ = build.cells();
    if is_thing(build.block_in(cell)) {
        spots.push(build.place(cell))?;
        numbers.push(cell)?;
    }
    Ok(())
}

impl Things {
    pub fn new(alloc: Global, build: &Build, marks: &Marks) -> Result<Things, NoMemory>
        ensures plan { IfOk result (λ things. things.plan ≡ build.now) }
        ensures marks { IfOk result (λ things. things.marks ≡ marks.now) }
    {
        let build = build.copy()?;
        let marks = marks.copy()?;
        let mut spots = Vec::new(alloc);
        let mut numbers = CellNumbers::new(alloc, build.cells())?;
        for cell in 0..build.cells() {
            number_cell(&build, cell, &mut spots, &mut numbers)?;
        }
        Ok(Things {
            build,
            marks,
            spots,
            numbers,
        })
    }

    /// The build that they are of.
    pub fn build(&self) -> &Build
        ensures value { result.now ≡ self.now.plan }
        ensures numbered { IsNumbered self.now }
        ensures few { length self.now.spots ≤ 16777216 }
    {
        &self.build
    }

    /// How many there are.
    pub fn count(&self) -> usize
        ensures count { result ≡ length self.now.spots }
        ensures few { result ≤ 16777216 }
        ensures numbered { IsNumbered self.now }
    {
        self.spots.len()
    }

    /// Where the thing of a number stands.
    pub fn spot(&self, number: usize) -> Pos
        requires { number < length self.now.spots }
        ensures { result ≡ spot self.now number }
    {
        self.spots[number]
    }

    /// The number of the thing at a place, if one stands there.
    #[tactic(auto, unfolding(crate::specs::Things::number_at))]
    pub fn number(&self, pos: Pos) -> Option<usize>
        ensures found { result ≡ number_at self.now pos }
        ensures below { IfSome result (λ number. number < length self.now.spots) }
    {
        match self.build.cell(pos) {
            Some(cell) => self.numbers.get(cell),
            None => None,
        }
    }

    /// The component at a place.
    #[tactic(auto, unfolding(build::specs::Roles::role_at))]
    pub fn role(&self, pos: Pos) -> Option<Component>
        ensures { result ≡ role_at self.now.plan self.now.marks pos }
    {
        component(self.build.at(pos), self.marks.contains(pos))
    }

    /// Where outputs stand, and what they are.
    pub fn outputs(&self, alloc: Global) -> Result<Vec<OutPlace>, NoMemory>
        ensures { IfOk result (λ places. places.items ≡ outputs self.now.plan self.now.marks) }
    {
        outputs(alloc, &self.build, &self.marks)
    }
}
