//! Whether two nodes are twins.

ghost use Rattle.std.specs.Prelude.{◌≡◌, ◌⊎◌, ◌<◌, ◌↔◌, ℕ, true, length, slice_index, IsTrue, option_map, option_copied};
ghost use Rattle.graph.specs.Graph.{node_at};
ghost use Rattle.graph.specs.Stored.{plain};
ghost use Rattle.graph.specs.Merging.{IsFanOut};
ghost use Rattle.graph.specs.Steps.{can_fold, is_full_or_none, asks_for_any, AreTwins};
ghost use Rattle.coalesce.specs.Pairs.{only_link, LookAlike, full_at, InOneGroup, IsInOneGroup, ComesFrom, AreLinksAlike, ReadAlike};

use graph::{Graph, Group, Kind, Link, Node, NodeKey};

// Whether two nodes always do the same. All links from `gone` go into the nodes `targets`.
pub fn are_twins(graph: &Graph, keep: NodeKey, gone: NodeKey, targets: &[NodeKey]) -> bool
    requires { IsFanOut graph.now.nodes gone targets.now }
    ensures { IsTrue result ↔ AreTwins graph.now.nodes keep gone }
{
    match (graph.node(keep), graph.node(gone)) {
        (Some(a), Some(b)) => {
            look_alike(a, b)
                && read_alike(graph, a, b, keep, gone)
                && in_one_group(graph, keep, gone, targets)
        }
        _ => false,
    }
}

fn look_alike(a: &Node, b: &Node) -> bool
    ensures { IsTrue result ↔ LookAlike (plain a.now) (plain b.now) }
{
    can_fold(a.kind)
        && a.kind == b.kind
        && a.first == b.first
        && a.state == b.state
        && a.due == b.due
        && a.priority == b.priority
}

// Whether it is a torch, a repeater or a comparator.
pub fn can_fold(kind: Kind) -> bool
    ensures { result ≡ can_fold kind }
{
    matches!(
        kind,
        Kind::Torch | Kind::Repeater { .. } | Kind::Comparator { .. }
    )
}

// The one link of a node, where it is of its back and brings something.
pub fn only_link(node: &Node) -> Option<Link>
    ensures { result ≡ only_link (plain node.now).links }
{
    match node.links.items.as_slice() {
        [link] if link.group == Group::Back && link.weight < 15 => Some(*link),
        _ => None,
    }
}

// Whether it is a torch or a repeater, which ask only whether there is any power.
pub fn asks_for_any(kind: Kind) -> bool
    ensures { result ≡ asks_for_any kind }
{
    matches!(kind, Kind::Torch | Kind::Repeater { .. })
}

// Whether it gives 0 or 15 always.
fn is_full_or_none(kind: Kind, state: u8) -> bool
    ensures { result ≡ is_full_or_none kind state }
{
    match kind {
        Kind::Lever | Kind::Button { .. } | Kind::Plate | Kind::Torch | Kind::Repeater { .. } =>
            true,
        Kind::Constant => state == 0 || state == 15,
        Kind::Weighted
        | Kind::Comparator { .. }
        | Kind::Lamp
        | Kind::Trapdoor
        | Kind::Note
        | Kind::Wire => false,
    }
}

// Whether some link of the group comes from the node.
fn comes_from(links: &[Link], from: NodeKey, group: Group) -> bool
    ensures { IsTrue result ↔ ComesFrom links.now from group }
{
    links
        .iter()
        .any(|link| link.from == from && link.group == group)
}

// Whether no link from the one is of another group than a link from the other.
fn one_group(links: &[Link], keep: NodeKey, gone: NodeKey) -> bool
    ensures { IsTrue result ↔ InOneGroup links.now keep gone }
{
    let across = comes_from(links, keep, Group::Back) && comes_from(links, gone, Group::Side);
    let back = comes_from(links, keep, Group::Side) && comes_from(links, gone, Group::Back);
    !across && !back
}

// Whether no node among these has links from both in two groups.
fn in_one_group(graph: &Graph, keep: NodeKey, gone: NodeKey, targets: &[NodeKey]) -> bool
    ensures { IsTrue result ↔ ((index : ℕ) → index < length targets.now → IsInOneGroup (node_at graph.now.nodes (slice_index targets.now index)) keep gone) }
{
    for key in targets {
        if !one_group_into(graph.node(*key), keep, gone) {
            return false;
        }
    }
    true
}

fn one_group_into(node: Option<&Node>, keep: NodeKey, gone: NodeKey) -> bool
    ensures { IsTrue result ↔ IsInOneGroup (option_map plain (option_copied node.entry)) keep gone }
{
    match node {
        Some(node) => one_group(&node.links.items, keep, gone),
        None => true,
    }
}

// Whether the nodes make the same of what they read.
fn read_alike(graph: &Graph, a: &Node, b: &Node, keep: NodeKey, gone: NodeKey) -> bool
    ensures { IsTrue result ↔ ReadAlike graph.now.nodes a.now.kind (only_link (plain a.now).links) (only_link (plain b.now).links) keep gone }
{
    match (only_link(a), only_link(b)) {
        (Some(one), Some(other)) => are_links_alike(graph, a.kind, one, other, keep, gone),
        _ => false,
    }
}

fn are_links_alike(
    graph: &Graph,
    kind: Kind,
    a: Link,
    b: Link,
    keep: NodeKey,
    gone: NodeKey,
) -> bool
    ensures { IsTrue result ↔ AreLinksAlike graph.now.nodes kind a b keep gone }
{
    b.from == a.from && a.from != keep && a.from != gone && bring_alike(graph, kind, a, b)
}

fn bring_alike(graph: &Graph, kind: Kind, a: Link, b: Link) -> bool
    ensures { IsTrue result ↔ (a.weight ≡ b.weight) ⊎ ((asks_for_any kind ≡ true) × (full_at (node_at graph.now.nodes a.from) ≡ true)) }
{
    a.weight == b.weight || (asks_for_any(kind) && is_full(graph.node(a.from)))
}

pub fn is_full(node: Option<&Node>) -> bool
    ensures { result ≡ full_at (option_map plain (option_copied node.entry)) }
{
    match node {
        Some(node) => is_full_or_none(node.kind, node.state),
        None => false,
    }
}
