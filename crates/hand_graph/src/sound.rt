//! Whether a graph is sound.

ghost use Rattle.std.specs.Prelude.{◌≡◌, ◌≢◌, ◌≤◌, true, false, Some, IsTrue, IfSome, length};
ghost use Rattle.graph.specs.Graph.{Node as PlainNode, node_at, Lives};
ghost use Rattle.graph.specs.Sound.{IsSound, IsSoundNode, IsKindInRange, can_wait, top_of};
ghost use Rattle.graph.specs.GraphCircuit.{role_of};
ghost use Rattle.graph.specs.Stored.{plain};
ghost use Rattle.hand_graph.specs.Apart.{LinksAreSound, IsAloneBefore};

use graph::{Graph, Kind, Link, Node, NodeKey, can_wait, top_of};
use node_arena::Key;

// Whether a graph of so many nodes, none of which was dropped, is sound, where no node stands for
// further places.
pub fn is_sound(graph: &Graph, count: u32) -> bool
    requires { length graph.now.nodes ≡ count }
    ensures { IsTrue result → IsSound graph.now.nodes }
{
    for number in 0..count {
        if !is_sound_at(graph, number) || !is_alone(graph, number) {
            return false;
        }
    }
    true
}

fn is_sound_at(graph: &Graph, number: u32) -> bool
    ensures { IsTrue result → (node : PlainNode) → node_at graph.now.nodes number ≡ Some node → IsSoundNode graph.now.nodes node }
{
    match graph.node(Key::new(number)) {
        Some(node) => is_sound_node(graph, node),
        None => true,
    }
}

fn is_sound_node(graph: &Graph, node: &Node) -> bool
    ensures { IsTrue result → IsSoundNode graph.now.nodes (plain node.now) }
{
    if !fits(node.kind, node.state) || !is_in_range(node.kind) {
        return false;
    }
    if !tick_fits(node.kind, node.due, node.priority) {
        return false;
    }
    links_are_sound(graph, &node.links.items)
}

fn fits(kind: Kind, state: u8) -> bool
    ensures { IsTrue result → state ≤ top_of (role_of kind) }
{
    state <= top_of(kind)
}

fn is_in_range(kind: Kind) -> bool
    ensures { IsTrue result → IsKindInRange kind }
{
    match kind {
        Kind::Button { delay } => delay == 10 || delay == 15,
        Kind::Repeater { delay } => delay >= 1 && delay <= 4,
        Kind::Comparator { direct, far, .. } => is_power(direct) && is_power(far),
        Kind::Lever
        | Kind::Plate
        | Kind::Weighted
        | Kind::Torch
        | Kind::Lamp
        | Kind::Trapdoor
        | Kind::Note
        | Kind::Wire
        | Kind::Constant => true,
    }
}

fn is_power(strength: Option<u8>) -> bool
    ensures { IsTrue result → IfSome strength (λ power. power ≤ 15) }
{
    match strength {
        Some(power) => power <= 15,
        None => true,
    }
}

fn tick_fits(kind: Kind, due: u8, priority: u8) -> bool
    ensures due { IsTrue result → due ≤ 15 }
    ensures priority { IsTrue result → priority ≤ 3 }
    ensures waiting { IsTrue result → due ≢ 0 → can_wait kind ≡ true }
    ensures idle { IsTrue result → due ≡ 0 → priority ≡ 0 }
{
    if due == 0 {
        priority == 0
    } else {
        due <= 15 && priority <= 3 && can_wait(kind)
    }
}

fn links_are_sound(graph: &Graph, links: &[Link]) -> bool
    ensures { IsTrue result → LinksAreSound graph.now.nodes links.now }
{
    for link in links {
        if link.weight > 15 || !lives(graph, link.from) {
            return false;
        }
    }
    true
}

fn lives(graph: &Graph, key: NodeKey) -> bool
    ensures { IsTrue result → Lives graph.now.nodes key }
{
    graph.node(key).is_some()
}

// Whether the node stands for its place alone, and none before it stands there.
fn is_alone(graph: &Graph, number: u32) -> bool
    ensures { IsTrue result → IsAloneBefore graph.now.nodes number }
{
    let Some(node) = graph.node(Key::new(number)) else {
        return true;
    };
    if !node.also.items.is_empty() {
        return false;
    }
    for other in 0..number {
        if stands_at(graph, other, node) {
            return false;
        }
    }
    true
}

// Whether the node of this number stands where the other one does.
fn stands_at(graph: &Graph, number: u32, other: &Node) -> bool
    ensures { result ≡ false → (node : PlainNode) → node_at graph.now.nodes number ≡ Some node → node.pos ≢ other.now.pos }
{
    match graph.node(Key::new(number)) {
        Some(node) => node.pos == other.pos,
        None => false,
    }
}
