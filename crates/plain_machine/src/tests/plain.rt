//! A plain machine. It looks at the graph itself for all that a node reads, and after each event
//! all nodes attend.

ghost use Rattle.std.specs.Prelude.{◌≡◌, ◌≤◌};

use circuit::{Act, Cell, Click, Pos, Readings};
use graph::{Graph, Group, Kind, Link, Node, NodeKey, back_of, role_of, top_of};
use rp_text::NoMemory;
use std::alloc::Global;

/// What the nodes hold.
#[derive(Drop)]
struct Plain {
    time: u64,
    events: u64,
    cells: Vec<Cell>,
}

fn node_at(graph: &Graph, key: usize) -> Option<&Node> {
    if key < 100 {
        graph.node(NodeKey::new(key as u32))
    } else {
        None
    }
}

/// What a node gives that holds this value.
fn given(node: &Node, value: u8) -> u8 {
    match role_of(node.kind) {
        Some(component) => {
            if value <= top_of(node.kind) {
                circuit::out(component, value)
            } else {
                0
            }
        }
        None => node.state,
    }
}

fn given_at(graph: &Graph, key: usize, value: u8) -> u8 {
    match node_at(graph, key) {
        Some(node) => given(node, value),
        None => 0,
    }
}

/// What each node gives.
fn outs_of(alloc: Global, graph: &Graph, cells: &[Cell]) -> Result<Vec<u8>, NoMemory> {
    let mut outs = Vec::new(alloc);
    for (key, cell) in cells.iter().enumerate() {
        outs.push(given_at(graph, key, cell.value))?;
    }
    Ok(outs)
}

/// What a link of the group brings.
fn brought(link: Link, group: Group, outs: &[u8]) -> u8 {
    match outs.get(link.from.number() as usize) {
        Some(out) if link.group == group => out.saturating_sub(link.weight),
        _ => 0,
    }
}

fn strongest(links: &[Link], group: Group, outs: &[u8]) -> u8 {
    let mut strongest = 0;
    for link in links {
        strongest = brought(*link, group, outs).max(strongest);
    }
    strongest
}

fn readings(node: &Node, outs: &[u8]) -> Readings {
    let links = node.links.items.as_slice();
    Readings {
        back: back_of(node.kind, strongest(links, Group::Back, outs)),
        side: strongest(links, Group::Side, outs),
    }
}

fn attended(time: u64, node: &Node, outs: &[u8], cell: Cell) -> Cell
    requires { time ≤ 100 }
{
    match role_of(node.kind) {
        Some(component) => {
            circuit::attended(time, component, node.first, readings(node, outs), cell)
        }
        None => cell,
    }
}

fn fired(time: u64, node: &Node, outs: &[u8], cell: Cell) -> Cell
    requires { time ≤ 100 }
{
    match role_of(node.kind) {
        Some(component) => circuit::fired(time, component, node.first, readings(node, outs), cell),
        None => cell,
    }
}

/// What a node begins with.
fn begin(node: &Node) -> Cell {
    match role_of(node.kind) {
        Some(_) => Cell {
            value: node.state,
            due: u64::from(node.due),
            priority: node.priority,
        },
        None => Cell {
            value: 0,
            due: 0,
            priority: 0,
        },
    }
}

/// The key of the least priority that is due.
fn first_due(cells: &[Cell], time: u64) -> Option<usize> {
    for priority in 0..4 {
        for (key, cell) in cells.iter().enumerate() {
            if cell.due == time && cell.priority == priority {
                return Some(key);
            }
        }
    }
    None
}

/// The value after a click of the place, where the node takes it.
fn clicked(node: &Node, pos: Pos, click: Click, value: u8) -> Option<u8> {
    if node.pos != pos {
        return None;
    }
    circuit::clicked(role_of(node.kind)?, click, value)
}

/// The key of the node that takes the click, and its value after it.
fn find_taker(graph: &Graph, pos: Pos, click: Click, cells: &[Cell]) -> Option<(usize, u8)> {
    for (key, cell) in cells.iter().enumerate() {
        if let Some(node) = node_at(graph, key) {
            if let Some(value) = clicked(node, pos, click, cell.value) {
                return Some((key, value));
            }
        }
    }
    None
}

/// What a node shows, if it is an output.
fn shown(node: &Node, outs: &[u8], value: u8) -> Option<u8> {
    match node.kind {
        Kind::Lamp | Kind::Trapdoor | Kind::Note => Some(value),
        Kind::Wire => Some(readings(node, outs).back),
        _ => None,
    }
}

/// All nodes attend at once.
fn attend_all(graph: &Graph, time: u64, cells: &mut Vec<Cell>) -> Result<(), NoMemory>
    requires { time ≤ 100 }
{
    let outs = outs_of(*cells.allocator(), graph, cells)?;
    for (key, cell) in cells.iter_mut().enumerate() {
        if let Some(node) = node_at(graph, key) {
            *cell = attended(time, node, &outs, *cell);
        }
    }
    Ok(())
}

fn fire(graph: &Graph, time: u64, key: usize, cells: &mut Vec<Cell>) -> Result<(), NoMemory>
    requires { time ≤ 100 }
{
    let outs = outs_of(*cells.allocator(), graph, cells)?;
    if let Some(node) = node_at(graph, key) {
        if let Some(cell) = cells.get_mut(key) {
            *cell = fired(time, node, &outs, *cell);
        }
    }
    attend_all(graph, time, cells)
}

fn set_value(key: usize, value: u8, cells: &mut [Cell]) {
    if let Some(cell) = cells.get_mut(key) {
        cell.value = value;
    }
}

impl Plain {
    fn start(alloc: Global, graph: &Graph) -> Result<Plain, NoMemory> {
        let mut cells = Vec::new(alloc);
        for key in 0..100 {
            if let Some(node) = node_at(graph, key) {
                cells.push(begin(node))?;
            }
        }
        attend_all(graph, 0, &mut cells)?;
        Ok(Plain {
            time: 0,
            events: 0,
            cells,
        })
    }

    fn click(&mut self, graph: &Graph, pos: Pos, click: Click) -> Result<(), NoMemory> {
        let time = self.time;
        if time > 100 {
            return Ok(());
        }
        if let Some((key, value)) = find_taker(graph, pos, click, &self.cells) {
            set_value(key, value, &mut self.cells);
            self.events = self.events.saturating_add(1);
            attend_all(graph, time, &mut self.cells)?;
        }
        Ok(())
    }

    fn tick(&mut self, graph: &Graph) -> Result<(), NoMemory> {
        if self.time >= 100 {
            return Ok(());
        }
        let time = self.time + 1;
        self.time = time;
        for _ in 0..self.cells.len() {
            match first_due(&self.cells, time) {
                Some(key) => {
                    self.events = self.events.saturating_add(1);
                    fire(graph, time, key, &mut self.cells)?;
                }
                None => return Ok(()),
            }
        }
        Ok(())
    }

    /// Appends what the outputs show, in the order of their keys.
    fn note_view(&self, graph: &Graph, views: &mut Vec<u8>) -> Result<(), NoMemory> {
        let outs = outs_of(*views.allocator(), graph, &self.cells)?;
        for (key, cell) in self.cells.iter().enumerate() {
            if let Some(node) = node_at(graph, key) {
                if let Some(value) = shown(node, &outs, cell.value) {
                    views.push(value)?;
                }
            }
        }
        Ok(())
    }
}

/// All views of a run, one after another, and the number of its events.
pub fn play(alloc: Global, graph: &Graph, acts: &[Act]) -> Result<(Vec<u8>, u64), NoMemory> {
    let mut views = Vec::new(alloc);
    let mut plain = Plain::start(alloc, graph)?;
    plain.note_view(graph, &mut views)?;
    for act in acts {
        match *act {
            Act::Click { pos, click } => {
                plain.click(graph, pos, click)?;
                plain.note_view(graph, &mut views)?;
            }
            Act::Ticks { count } => {
                for _ in 0..count {
                    plain.tick(graph)?;
                    plain.note_view(graph, &mut views)?;
                }
            }
        }
    }
    Ok((views, plain.events))
}
