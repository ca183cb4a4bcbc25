//! How a graph is laid out for a machine.

ghost use Rattle.std.specs.Prelude.{◌≡◌, ◌+◌, ◌-◌, ◌<◌, ◌≤◌, ◌^◌, ◌==◌, ℕ, [], All, None, length, map, count_by, IfOk, IfSome, OnOk, option_map, option_copied, slice_index_or};
ghost use Rattle.circuit.specs.Component.{top};
ghost use Rattle.graph.specs.declared.Group.{Group};
ghost use Rattle.graph.specs.declared.Link.{Link};
ghost use Rattle.graph.specs.Graph.{node_at};
ghost use Rattle.graph.specs.Sound.{IsSound};
ghost use Rattle.graph.specs.Stored.{plain};
ghost use Rattle.link_counts.specs.Counted.{count_at, tally};
ghost use Rattle.graph_machine.specs.Counted.{row};
ghost use Rattle.graph.specs.GraphCircuit.{begin_of, begin_at};
ghost use Rattle.cell_queue.specs.Held.{cell_of};
ghost use Rattle.graph_machine.specs.Outgoing.{links_at};
ghost use Rattle.graph_machine.specs.Wired.{given, part_at, brief_by};
ghost use Rattle.graph_machine.specs.Wiring.{IsSmall, role_out, part_out, WiresLinks, IsKept, WiredUp};

use crate::links::{MOST_LINKS, OutLink, Rows};
use crate::net::{Brief, Part, brief_of};
use cell_queue::NOTHING;
use circuit::{Cell, Component};
use graph::{Graph, Link, Node, NodeKey, role_of};
use link_counts::{Counts, Tables};
use rp_text::NoMemory;
use std::alloc::Global;

fn part_of(node: Option<&Node>) -> Option<Part>
    ensures { result ≡ part_at (option_map plain (option_copied node.entry)) }
{
    let node = node?;
    Some(Part {
        pos: node.pos,
        kind: node.kind,
        state: node.state,
        first: node.first,
    })
}

/// What a key is.
pub fn part_under(graph: &Graph, key: usize) -> Option<Part>
    requires { key < 2 ^ 32 }
    ensures { result ≡ part_at (node_at graph.now.nodes key) }
{
    part_of(graph.node(NodeKey::new(key as u32)))
}

/// What each key is.
pub fn parts_of(alloc: Global, graph: &Graph, count: usize) -> Result<Vec<Option<Part>>, NoMemory>
    requires few { count ≤ 2 ^ 32 }
    requires past { (key : ℕ) → count ≤ key → node_at graph.now.nodes key ≡ None }
    ensures count { IfOk result (λ parts. length parts.items ≡ count) }
    ensures kept { IfOk result (λ parts. IsKept graph.now.nodes parts.items) }
{
    let mut parts = Vec::with_capacity(alloc, count)?;
    for key in 0..count {
        parts.push(part_under(graph, key))?;
    }
    Ok(parts)
}

/// What an event needs of each key.
pub fn briefs_of(alloc: Global, parts: &[Option<Part>]) -> Result<Vec<Brief>, NoMemory>
    ensures { IfOk result (λ briefs. briefs.items ≡ map brief_by parts.now) }
{
    Ok(parts.iter().map(|part| brief_of(*part)).collect(alloc)?)
}

fn role_out(role: Option<Component>, state: u8) -> u8
    requires { IfSome role (λ component. state ≤ top component) }
    ensures { result ≡ role_out role state }
{
    match role {
        Some(component) => circuit::out(component, state),
        None => state,
    }
}

/// What a node gives at the beginning.
fn part_out(part: Option<Part>) -> u8
    requires { IsSmall part }
    ensures { result ≡ part_out part }
{
    match part {
        Some(part) => role_out(role_of(part.kind), part.state),
        None => 0,
    }
}

/// What each key gives at the beginning.
pub fn outs_of(alloc: Global, parts: &[Option<Part>]) -> Result<Vec<u8>, NoMemory>
    requires { All IsSmall parts.now }
    ensures count { IfOk result (λ outs. length outs.items ≡ length parts.now) }
    ensures outs { IfOk result (λ outs. (key : ℕ) → given outs.items key ≡ part_out (slice_index_or parts.now key None)) }
{
    let mut outs = Vec::with_capacity(alloc, parts.len())?;
    for part in parts {
        outs.push(part_out(*part))?;
    }
    Ok(outs)
}

/// What a link brings.
fn strength_of(outs: &[u8], link: Link) -> u8
    requires { link.from < length outs.now }
    ensures { result ≡ given outs.now link.from - link.weight }
{
    outs[link.from.number() as usize].saturating_sub(link.weight)
}

/// Adds the links into a node, to its counts and to where they come from.
fn wire_links(
    links: &[Link],
    key: u32,
    outs: &[u8],
    counts: &mut Counts,
    rows: &mut Rows,
) -> Result<(), NoMemory>
    requires from { All (λ (link : Link). link.from < length rows.old) links.now }
    requires whole { length outs.now ≡ length rows.old }
    requires small { (key : ℕ) → given outs.now key < 16 }
    requires inside { key < length rows.old }
    requires few { length links.now < 2 ^ 31 }
    requires none { (group : Group) (strength : ℕ) → strength < 16 → count_at counts.old group strength ≡ 0 }
    ensures { OnOk result (WiresLinks (given outs.now) key links.now counts.new rows.old rows.new) }
{
    for link in links {
        let from = link.from.number() as usize;
        counts.add(link.group, strength_of(outs, *link));
        rows.add(
            from,
            OutLink {
                to: key,
                group: link.group,
                weight: link.weight,
            },
        )?;
    }
    Ok(())
}

/// Adds the links into a node, if there is one.
fn wire_node(
    node: Option<&Node>,
    key: u32,
    outs: &[u8],
    counts: &mut Counts,
    rows: &mut Rows,
) -> Result<(), NoMemory>
    requires from { All (λ (link : Link). link.from < length rows.old) (links_at (option_map plain (option_copied node))) }
    requires whole { length outs.now ≡ length rows.old }
    requires small { (key : ℕ) → given outs.now key < 16 }
    requires inside { key < length rows.old }
    requires none { (group : Group) (strength : ℕ) → strength < 16 → count_at counts.old group strength ≡ 0 }
    ensures wires { OnOk result (WiresLinks (given outs.now) key (links_at (option_map plain (option_copied node.entry))) counts.new rows.old rows.new) }
    ensures few { OnOk result (length (links_at (option_map plain (option_copied node.entry))) < 2 ^ 31) }
{
    match node {
        Some(node) => {
            let links = node.links.items.as_slice();
            if links.len() >= MOST_LINKS {
                return Err(NoMemory);
            }
            wire_links(links, key, outs, counts, rows)
        }
        None => Ok(()),
    }
}

/// Adds the links into all nodes.
pub fn wire(
    graph: &Graph,
    outs: &[u8],
    tables: &mut Tables,
    rows: &mut Rows,
) -> Result<(), NoMemory>
    requires sound { IsSound graph.now.nodes }
    requires past { (key : ℕ) → length outs.now ≤ key → node_at graph.now.nodes key ≡ None }
    requires few { length outs.now ≤ 2 ^ 32 }
    requires small { (key : ℕ) → given outs.now key < 16 }
    requires no_count { tables.old ≡ [] }
    requires rows_whole { length rows.old ≡ length outs.now }
    requires no_link { (from : ℕ) → row rows.old from ≡ [] }
    ensures wired { OnOk result (WiredUp graph.now.nodes (length outs.now) (given outs.now) tables.new rows.new) }
    ensures whole { OnOk result (length tables.new ≡ length outs.now) }
{
    for key in 0..outs.len() {
        let mut counts = Counts::new();
        wire_node(
            graph.node(NodeKey::new(key as u32)),
            key as u32,
            outs,
            &mut counts,
            rows,
        )?;
        tables.push(counts)?;
    }
    Ok(())
}

fn begin_of(role: Option<Component>, cell: Cell) -> Cell
    ensures { result ≡ begin_of role cell }
{
    match role {
        Some(_) => cell,
        None => NOTHING,
    }
}

/// What a node begins with.
fn begin_cell(node: Option<&Node>) -> Cell
    ensures { result ≡ begin_at (option_map plain (option_copied node.entry)) }
{
    match node {
        Some(node) => begin_of(
            role_of(node.kind),
            Cell {
                value: node.state,
                due: u64::from(node.due),
                priority: node.priority,
            },
        ),
        None => NOTHING,
    }
}

/// What each key begins with.
pub fn begin_cells(alloc: Global, graph: &Graph, count: usize) -> Result<Vec<Cell>, NoMemory>
    requires few { count ≤ 2 ^ 32 }
    ensures count { IfOk result (λ cells. length cells.items ≡ count) }
    ensures begin { IfOk result (λ cells. (key : ℕ) → key < count → cell_of cells.items key ≡ begin_at (node_at graph.now.nodes key)) }
{
    let mut cells = Vec::with_capacity(alloc, count)?;
    for key in 0..count {
        cells.push(begin_cell(graph.node(NodeKey::new(key as u32))))?;
    }
    Ok(cells)
}
