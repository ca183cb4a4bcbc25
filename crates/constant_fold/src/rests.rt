//! Whether a node rests, by what Constants give.

ghost use Rattle.std.specs.Prelude.{◌≡◌, ◌≤◌, Some};
ghost use Rattle.circuit.specs.Component.{top};
ghost use Rattle.graph.specs.Graph.{node_at};
ghost use Rattle.graph.specs.Readings.{share, reading, readings_of};
ghost use Rattle.graph.specs.Sound.{IsSound, IsSoundNode};
ghost use Rattle.graph.specs.Steps.{fixed};
ghost use Rattle.graph.specs.Stored.{plain};
ghost use Rattle.constant_fold.specs.Foldable.{is_constant_kind, is_constant, folding_part, part_of, part_at, rest_value, rest_value_at, are_fixed, fold_value, fold_value_at};

use circuit::{Component, Readings, goal, locked, out};
use graph::{Graph, Group, Kind, Link, Node, NodeKey, back_of, fixed_at};

// The component of the node, if it may be folded and has no pending tick.
pub fn part_at(graph: &Graph, key: NodeKey) -> Option<Component>
    ensures { result ≡ part_at (node_at graph.now.nodes key) }
{
    let node = graph.node(key)?;
    part_of(node)
}

fn part_of(node: &Node) -> Option<Component>
    ensures { result ≡ part_of (plain node.now) }
{
    if node.due == 0 {
        folding_part(node.kind)
    } else {
        None
    }
}

fn folding_part(kind: Kind) -> Option<Component>
    ensures { result ≡ folding_part kind }
{
    match kind {
        Kind::Torch => Some(Component::Torch),
        Kind::Repeater { delay } => Some(Component::Repeater { delay }),
        Kind::Comparator { subtract, .. } => Some(Component::Comparator { subtract }),
        Kind::Lever
        | Kind::Button { .. }
        | Kind::Plate
        | Kind::Weighted
        | Kind::Lamp
        | Kind::Trapdoor
        | Kind::Note
        | Kind::Wire
        | Kind::Constant => None,
    }
}

// What the node gives for good, if it can be folded now.
pub fn fold_value_at(graph: &Graph, key: NodeKey) -> Option<u8>
    requires { IsSound graph.now.nodes }
    ensures { result ≡ fold_value_at graph.now.nodes (node_at graph.now.nodes key) }
{
    let node = graph.node(key)?;
    fold_value(graph, node)
}

fn fold_value(graph: &Graph, node: &Node) -> Option<u8>
    requires { IsSoundNode graph.now.nodes (plain node.now) }
    ensures { result ≡ fold_value graph.now.nodes (plain node.now) }
{
    let component = part_of(node)?;
    if are_fixed(graph, &node.links.items) {
        rest_value(graph, node, component)
    } else {
        None
    }
}

// Whether all these links come from Constants.
fn are_fixed(graph: &Graph, links: &[Link]) -> bool
    ensures { result ≡ are_fixed graph.now.nodes links.now }
{
    links.iter().all(|link| is_constant_at(graph, link.from))
}

pub fn is_constant_at(graph: &Graph, key: NodeKey) -> bool
    ensures { result ≡ is_constant (node_at graph.now.nodes key) }
{
    match graph.node(key) {
        Some(node) => is_constant(node.kind),
        None => false,
    }
}

fn is_constant(kind: Kind) -> bool
    ensures { result ≡ is_constant_kind kind }
{
    match kind {
        Kind::Constant => true,
        Kind::Lever
        | Kind::Button { .. }
        | Kind::Plate
        | Kind::Weighted
        | Kind::Torch
        | Kind::Repeater { .. }
        | Kind::Comparator { .. }
        | Kind::Lamp
        | Kind::Trapdoor
        | Kind::Note
        | Kind::Wire => false,
    }
}

// What the node gives, if it is at its goal or locked.
pub fn rest_value_at(graph: &Graph, key: NodeKey, component: Component) -> Option<u8>
    requires sound { IsSound graph.now.nodes }
    requires part { part_at (node_at graph.now.nodes key) ≡ Some component }
    ensures { result ≡ rest_value_at graph.now.nodes (node_at graph.now.nodes key) component }
{
    let node = graph.node(key)?;
    rest_value(graph, node, component)
}

fn rest_value(graph: &Graph, node: &Node, component: Component) -> Option<u8>
    requires { node.now.state ≤ top component }
    ensures { result ≡ rest_value graph.now.nodes (plain node.now) component }
{
    let readings = fixed_readings(graph, node);
    if node.state == goal(component, readings) || locked(component, readings) {
        Some(out(component, node.state))
    } else {
        None
    }
}

// What the node reads, where Constants alone give anything.
fn fixed_readings(graph: &Graph, node: &Node) -> Readings
    ensures { result ≡ readings_of (fixed graph.now.nodes) (plain node.now) }
{
    let power = fixed_reading(graph, Group::Back, &node.links.items);
    let side = fixed_reading(graph, Group::Side, &node.links.items);
    Readings {
        back: back_of(node.kind, power),
        side,
    }
}

fn fixed_reading(graph: &Graph, group: Group, links: &[Link]) -> u8
    ensures { result ≡ reading (fixed graph.now.nodes) group links.now }
{
    let mut most = 0;
    for link in links {
        most = most.max(share(graph, group, link));
    }
    most
}

fn share(graph: &Graph, group: Group, link: &Link) -> u8
    ensures { result ≡ share (fixed graph.now.nodes) group link.now }
{
    match (group, link.group) {
        (Group::Back, Group::Back) | (Group::Side, Group::Side) => {
            fixed_at(graph, link.from).saturating_sub(link.weight)
        }
        _ => 0,
    }
}
