//! The nodes that stand at places: the outputs in their order, and those that take clicks.

ghost use Rattle.std.specs.Prelude.{◌≡◌, ◌≤◌, ◌^◌, ℕ, None, IfOk, IfSome, IfNone, OnOk};
ghost use Rattle.std.specs.BTreeMap.{values};
ghost use Rattle.circuit.specs.Taken.{Takes};
ghost use Rattle.graph.specs.Graph.{node_at};
ghost use Rattle.graph.specs.GraphCircuit.{graph_circuit, is_output};
ghost use Rattle.graph.specs.Sound.{IsSound};
ghost use Rattle.graph_machine.specs.Places.{spot, is_clicked, PutsOutput, PutsClicked, AreClicked, role_takes, part_takes, TakesAt};

use crate::net::{Net, Part};
use crate::wiring::part_under;
use circuit::{Click, Component, Pos};
use graph::{Graph, Kind, role_of};
use rp_text::NoMemory;
use std::alloc::Global;
use std::collections::BTreeMap;

/// A place as y, z and x, the order in which outputs are shown.
pub type Spot = (i32, i32, i32);

/// Keys by the places of their nodes.
pub type Keys = BTreeMap<Spot, u32>;

/// The place in the order of outputs.
fn spot(pos: Pos) -> Spot
    ensures { result ≡ spot pos }
{
    (pos.y, pos.z, pos.x)
}

fn is_output(kind: Kind) -> bool
    ensures { result ≡ is_output kind }
{
    matches!(kind, Kind::Lamp | Kind::Trapdoor | Kind::Note | Kind::Wire)
}

fn is_clicked(kind: Kind) -> bool
    ensures { result ≡ is_clicked kind }
{
    matches!(
        kind,
        Kind::Lever | Kind::Button { .. } | Kind::Plate | Kind::Weighted
    )
}

/// Puts the node in, if it is an output.
fn put_output(keys: &mut Keys, key: u32, part: Option<Part>) -> Result<(), NoMemory>
    ensures { OnOk result (PutsOutput key part keys.old keys.new) }
{
    if let Some(part) = part {
        if is_output(part.kind) {
            keys.insert(spot(part.pos), key)?;
        }
    }
    Ok(())
}

/// The keys of nodes, in the order of their places.
fn in_order(alloc: Global, keys: &Keys) -> Result<Vec<u32>, NoMemory>
    ensures { IfOk result (λ all. all.items ≡ values keys.now) }
{
    Ok(keys.values().copied().collect(alloc)?)
}

/// The keys of the outputs, in the order of their places.
pub fn shown_by(alloc: Global, graph: &Graph, count: usize) -> Result<Vec<u32>, NoMemory>
    requires sound { IsSound graph.now.nodes }
    requires few { count ≤ 2 ^ 32 }
    requires past { (key : ℕ) → count ≤ key → node_at graph.now.nodes key ≡ None }
    ensures { IfOk result (λ shown. shown.items ≡ (graph_circuit graph.now.nodes).shown) }
{
    let mut keys = BTreeMap::new(alloc);
    for key in (0..count).rev() {
        put_output(&mut keys, key as u32, part_under(graph, key))?;
    }
    in_order(alloc, &keys)
}

/// Puts the node in, if it takes clicks.
fn put_clicked(keys: &mut Keys, key: u32, part: Option<Part>) -> Result<(), NoMemory>
    ensures { OnOk result (PutsClicked key part keys.old keys.new) }
{
    if let Some(part) = part {
        if is_clicked(part.kind) {
            keys.insert(spot(part.pos), key)?;
        }
    }
    Ok(())
}

/// The keys of the nodes that take clicks.
pub fn clicked_by(alloc: Global, graph: &Graph, count: usize) -> Result<Keys, NoMemory>
    requires sound { IsSound graph.now.nodes }
    requires few { count ≤ 2 ^ 32 }
    requires past { (key : ℕ) → count ≤ key → node_at graph.now.nodes key ≡ None }
    ensures { IfOk result (λ keys. AreClicked graph.now.nodes keys) }
{
    let mut keys = BTreeMap::new(alloc);
    for key in 0..count {
        put_clicked(&mut keys, key as u32, part_under(graph, key))?;
    }
    Ok(keys)
}

/// Whether a node of this place takes the click.
fn takes(part: Option<Part>, pos: Pos, click: Click) -> bool
    ensures { result ≡ part_takes part pos click }
{
    match part {
        Some(part) => part.pos == pos && role_takes(role_of(part.kind), click),
        None => false,
    }
}

fn role_takes(role: Option<Component>, click: Click) -> bool
    ensures { result ≡ role_takes role click }
{
    match role {
        Some(component) => circuit::takes(component, click),
        None => false,
    }
}

/// The key of the node of the place that takes the click.
pub fn find_taker(net: &Net, clicked: &Keys, pos: Pos, click: Click) -> Option<usize>
    requires { AreClicked net.now.nodes clicked.now }
    ensures some { IfSome result (λ key. TakesAt net.now.nodes key pos click) }
    ensures none { IfNone result (Takes (graph_circuit net.now.nodes) pos click → ⊥) }
{
    let key = *clicked.get(&spot(pos))? as usize;
    if takes(net.part(key), pos, click) {
        Some(key)
    } else {
        None
    }
}
