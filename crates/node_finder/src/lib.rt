//! The nodes that a build is compiled to, before they are linked.
#![tactic(auto)]

ghost use Rattle.std.specs.Prelude.{◌≡◌, ◌<◌, List, [], ◌∷◌, OnOk, IfOk, IsTrue};
ghost use Rattle.build.specs.declared.Pending.{Pending};
ghost use Rattle.build.specs.Plan.{block_at, entry, in_box, volume, place_of};
ghost use Rattle.build.specs.Roles.{stored, waiting_at, cell_with, direct_at, far_at};
ghost use Rattle.graph.specs.RawNodes.{has_node, kind_of, state_of, unless_direct, bare_node, bare_nodes};
ghost use Rattle.graph.specs.Stored.{plain};
ghost use Rattle.node_finder.specs.TicksByCell.{AreByCell};

use block_table::{Block, Side};
use build::{Build, Marks, Pending};
use circuit::Pos;
use graph::{Graph, Kind, Links, Node, Places};
use power_rules::{
    button_delay, component, direct_strength, faces_diode, far_strength, stored_value,
};
use rp_text::NoMemory;
use smallvec::SmallVec;
use std::alloc::Global;
use std::collections::BTreeMap;

// The strength beyond counts only where the input block has none.
fn unless_direct(direct: Option<u8>, far: Option<u8>) -> Option<u8>
    ensures { result ≡ unless_direct direct far }
{
    if direct.is_some() { None } else { far }
}

// The comparator of this facing, with the strengths that it reads.
fn comparator(build: &Build, pos: Pos, facing: Side, subtract: bool) -> Kind
    requires { IsTrue (in_box build.now pos) }
    ensures { result ≡ Kind.Comparator subtract (direct_at build.now pos facing) (unless_direct (direct_at build.now pos facing) (far_at build.now pos facing)) }
{
    let direct = direct_strength(build, pos, facing);
    let far = unless_direct(direct, far_strength(build, pos, facing));
    Kind::Comparator {
        subtract,
        direct,
        far,
    }
}

// What the node of the block at a place is.
fn kind_of(build: &Build, pos: Pos) -> Kind
    requires { IsTrue (in_box build.now pos) }
    ensures { result ≡ kind_of build.now pos (block_at build.now pos) }
{
    match build.at(pos) {
        Block::Lever { .. } => Kind::Lever,
        Block::Button { name, .. } => Kind::Button {
            delay: button_delay(name),
        },
        Block::Plate { .. } => Kind::Plate,
        Block::Weighted { .. } => Kind::Weighted,
        Block::Torch { .. } | Block::WallTorch { .. } => Kind::Torch,
        Block::Repeater { delay, .. } => Kind::Repeater { delay },
        Block::Comparator { facing, subtract } => comparator(build, pos, facing, subtract),
        Block::Lamp { .. } => Kind::Lamp,
        Block::Trapdoor { .. } => Kind::Trapdoor,
        Block::Note { .. } => Kind::Note,
        Block::RedstoneBlock => Kind::Constant,
        Block::Air
        | Block::Inert { .. }
        | Block::Slab { .. }
        | Block::Wire { .. }
        | Block::Container { .. }
        | Block::Composter { .. }
        | Block::Cauldron { .. }
        | Block::Cake { .. } => Kind::Wire,
    }
}

// What the node of the block at a place begins with.
fn state_of(build: &Build, pos: Pos) -> u8
    ensures { result ≡ state_of (block_at build.now pos) (entry build.now build.now.levels 0 pos) }
{
    match build.at(pos) {
        Block::RedstoneBlock => 15,
        Block::Air
        | Block::Inert { .. }
        | Block::Slab { .. }
        | Block::Wire { .. }
        | Block::Torch { .. }
        | Block::WallTorch { .. }
        | Block::Repeater { .. }
        | Block::Comparator { .. }
        | Block::Lever { .. }
        | Block::Button { .. }
        | Block::Plate { .. }
        | Block::Lamp { .. }
        | Block::Trapdoor { .. }
        | Block::Container { .. }
        | Block::Composter { .. }
        | Block::Cauldron { .. }
        | Block::Cake { .. }
        | Block::Weighted { .. }
        | Block::Note { .. } => stored_value(build, pos),
    }
}

// Whether a place has a node.
#[tactic(auto, unfolding(graph::specs::RawNodes::has_node))]
fn has_node(build: &Build, marks: &Marks, cell: usize) -> bool
    requires { cell < volume build.now }
    ensures { result ≡ has_node build.now marks.now (place_of build.now cell) }
{
    let block = build.block_in(cell);
    match block {
        Block::Wire { .. } => marks.contains(build.place(cell)),
        Block::RedstoneBlock => true,
        Block::Air
        | Block::Inert { .. }
        | Block::Slab { .. }
        | Block::Torch { .. }
        | Block::WallTorch { .. }
        | Block::Repeater { .. }
        | Block::Comparator { .. }
        | Block::Lever { .. }
        | Block::Button { .. }
        | Block::Plate { .. }
        | Block::Lamp { .. }
        | Block::Trapdoor { .. }
        | Block::Container { .. }
        | Block::Composter { .. }
        | Block::Cauldron { .. }
        | Block::Cake { .. }
        | Block::Weighted { .. }
        | Block::Note { .. } => component(block, false).is_some(),
    }
}

// Puts a tick before the others.
fn add_tick(
    ticks: &mut BTreeMap<usize, Pending>,
    build: &Build,
    tick: Pending,
) -> Result<(), NoMemory>
    ensures { OnOk result ((rest : List Pending) → AreByCell build.now rest ticks.old → AreByCell build.now (tick ∷ rest) ticks.new) }
{
    if let Some(cell) = build.cell(tick.pos) {
        ticks.insert(cell, tick)?;
    }
    Ok(())
}

// The pending ticks of a build, by the cells of their places.
fn ticks_by_cell(alloc: Global, build: &Build) -> Result<BTreeMap<usize, Pending>, NoMemory>
    ensures { IfOk result (λ ticks. AreByCell build.now build.now.pending ticks) }
{
    let pending = build.pending();
    let mut ticks = BTreeMap::new(alloc);
    for index in (0..pending.len()).rev() {
        add_tick(&mut ticks, build, pending[index])?;
    }
    Ok(ticks)
}

// The tick that is pending at the place of a cell.
fn waiting_at(ticks: &BTreeMap<usize, Pending>, build: &Build, cell: usize) -> Option<Pending>
    requires by_cell { AreByCell build.now build.now.pending ticks.now }
    requires inside { cell < volume build.now }
    ensures { result ≡ waiting_at build.now.pending (place_of build.now cell) }
{
    ticks.get(&cell).copied()
}

// How long a node waits for its pending tick, and with which priority.
#[derive(Clone, Copy)]
struct Wait {
    due: u8,
    priority: u8,
}

fn wait_of(tick: Option<Pending>) -> Wait
    ensures due { result.due ≡ (cell_with 0 tick).due }
    ensures priority { result.priority ≡ (cell_with 0 tick).priority }
{
    match tick {
        Some(tick) => Wait {
            due: tick.due,
            priority: tick.priority,
        },
        None => Wait {
            due: 0,
            priority: 0,
        },
    }
}

// The wait of the place of a cell. Only a part waits.
#[tactic(auto, unfolding(build::specs::Roles::stored, build::specs::Roles::role_at))]
fn wait_at(build: &Build, marks: &Marks, ticks: &BTreeMap<usize, Pending>, cell: usize) -> Wait
    requires by_cell { AreByCell build.now build.now.pending ticks.now }
    requires inside { cell < volume build.now }
    ensures due { result.due ≡ (stored build.now marks.now (place_of build.now cell)).due }
    ensures priority { result.priority ≡ (stored build.now marks.now (place_of build.now cell)).priority }
{
    let pos = build.place(cell);
    match component(build.at(pos), marks.contains(pos)) {
        Some(_) => wait_of(waiting_at(ticks, build, cell)),
        None => wait_of(None),
    }
}

// The node of the place of a cell, without links.
#[tactic(auto, unfolding(graph::specs::RawNodes::bare_node))]
fn bare_node(
    alloc: Global,
    build: &Build,
    marks: &Marks,
    ticks: &BTreeMap<usize, Pending>,
    cell: usize,
) -> Node
    requires by_cell { AreByCell build.now build.now.pending ticks.now }
    requires inside { cell < volume build.now }
    ensures plain { plain result ≡ bare_node build.now marks.now (place_of build.now cell) }
    ensures links { result.links.items ≡ [] }
{
    let pos = build.place(cell);
    let wait = wait_at(build, marks, ticks, cell);
    Node {
        pos,
        kind: kind_of(build, pos),
        state: state_of(build, pos),
        first: faces_diode(build, pos),
        due: wait.due,
        priority: wait.priority,
        links: Links {
            items: SmallVec::new(alloc),
        },
        also: Places {
            items: Vec::new(alloc),
        },
    }
}

/// The nodes of a build, without links, in order of places: one for each component, block of
/// redstone and marked wire. A mark where no wire stands counts for nothing.
pub fn find(alloc: Global, build: &Build, marks: &Marks) -> Result<Graph, NoMemory>
    ensures { IfOk result (λ graph. graph.nodes ≡ bare_nodes build.now marks.now) }
{
    let ticks = ticks_by_cell(alloc, build)?;
    let mut graph = Graph::new(alloc);
    for cell in 0..build.cells() {
        if has_node(build, marks, cell) {
            graph.add_node(bare_node(alloc, build, marks, &ticks, cell))?;
        }
    }
    Ok(graph)
}

#[cfg(test)]
mod tests;
