//! Whether a small graph is sound, by looking at each of its nodes.

ghost use Rattle.std.specs.Prelude.{◌≡◌, ◌<◌, ◌^◌, IsTrue, IfOk};
ghost use Rattle.std.specs.List.{list_all};
ghost use Rattle.graph.specs.Graph.{node_at};
ghost use Rattle.graph.specs.GraphCircuit.{role_of};
ghost use Rattle.graph.specs.Sound.{IsSound, can_wait, top_of};
ghost use Rattle.graph.specs.Stored.{plain};
ghost use Rattle.plain_machine.specs.Good.{is_small, is_kind_good, is_tick_good, is_link_good, is_alone, is_node_good, is_entry_good, is_key_good, is_good};

use graph::{Graph, Kind, Link, Node, NodeKey, can_wait, top_of};
use rp_text::NoMemory;

fn is_small(strength: Option<u8>) -> bool
    ensures { result ≡ is_small strength }
{
    match strength {
        Some(strength) => strength <= 15,
        None => true,
    }
}

fn is_kind_good(kind: Kind) -> bool
    ensures { result ≡ is_kind_good kind }
{
    match kind {
        Kind::Button { delay } => delay == 10 || delay == 15,
        Kind::Repeater { delay } => 1 <= delay && delay <= 4,
        Kind::Comparator { direct, far, .. } => is_small(direct) && is_small(far),
        Kind::Lever
        | Kind::Plate
        | Kind::Weighted
        | Kind::Torch
        | Kind::Lamp
        | Kind::Trapdoor
        | Kind::Note
        | Kind::Wire
        | Kind::Constant => true,
    }
}

fn is_tick_good(kind: Kind, due: u8, priority: u8) -> bool
    ensures { result ≡ is_tick_good kind due priority }
{
    if due == 0 {
        priority == 0
    } else {
        can_wait(kind) && due <= 15 && priority <= 3
    }
}

fn is_link_good(graph: &Graph, link: Link) -> bool
    ensures { result ≡ is_link_good graph.now.nodes link }
{
    link.weight <= 15 && graph.node(link.from).is_some()
}

fn are_links_good(graph: &Graph, links: &[Link]) -> bool
    ensures { result ≡ list_all (is_link_good graph.now.nodes) links.now }
{
    links.iter().all(|link| is_link_good(graph, *link))
}

fn is_alone(key: u32, node: &Node) -> bool
    requires { key < 2 ^ 31 }
    ensures { result ≡ is_alone key (plain node.now) }
{
    node.pos.x == key as i32 && node.also.items.len() == 0
}

fn is_node_good(graph: &Graph, key: u32, node: &Node) -> bool
    requires { key < 2 ^ 31 }
    ensures { result ≡ is_node_good graph.now.nodes key (plain node.now) }
{
    node.state <= top_of(node.kind)
        && is_kind_good(node.kind)
        && is_tick_good(node.kind, node.due, node.priority)
        && are_links_good(graph, node.links.items.as_slice())
        && is_alone(key, node)
}

fn is_entry_good(graph: &Graph, key: u32) -> bool
    requires { key < 2 ^ 31 }
    ensures { result ≡ is_entry_good graph.now.nodes key (node_at graph.now.nodes key) }
{
    match graph.node(NodeKey::new(key)) {
        Some(node) => is_node_good(graph, key, node),
        None => true,
    }
}

fn is_key_good(graph: &Graph, key: NodeKey) -> bool
    ensures { result ≡ is_key_good graph.now.nodes key }
{
    key.number() < 100 && is_entry_good(graph, key.number())
}

fn are_keys_good(graph: &Graph, keys: &[NodeKey]) -> bool
    ensures { result ≡ list_all (is_key_good graph.now.nodes) keys.now }
{
    keys.iter().all(|key| is_key_good(graph, *key))
}

/// Whether each node of a graph is sound and stands alone at the x of its key, which is below 100.
/// Such a graph is sound.
pub fn is_good(graph: &Graph) -> Result<bool, NoMemory>
    ensures exact { IfOk result (λ good. good ≡ is_good graph.now.nodes) }
    ensures sound { IfOk result (λ good. IsTrue good → IsSound graph.now.nodes) }
{
    let keys = graph.keys()?;
    Ok(are_keys_good(graph, &keys))
}
