//! What is counted and looked for among the nodes.

ghost use Rattle.std.specs.Prelude.{◌≡◌, ◌↔◌, ◌≤◌, ◌^◌, Option, option_map, option_copied, IsTrue, sum_by};
ghost use Rattle.graph.specs.Graph.{Nodes, node_at, links_into, link_count};
ghost use Rattle.graph.specs.Stored.{plain, plain_nodes, IsStored};
ghost use Rattle.graph.specs.Clicks.{answers, answers_at, is_wire_at, HasAnswer, HasWire};

use crate::{Click, Kind, Node, OfNodes, Pos};
use node_arena::{Arena, Key};

// How many links there are.
pub fn link_count(nodes: &Arena<OfNodes, Node>) -> u64
    requires { IsStored (plain_nodes nodes.now.entries) }
    ensures { result ≡ link_count (plain_nodes nodes.now.entries) }
{
    let mut links = 0;
    for number in 0..nodes.made() {
        links += links_into(nodes.get(Key::new(number)));
    }
    links
}

fn links_into(node: Option<&Node>) -> u64
    ensures { result ≡ links_into (option_map plain (option_copied node.entry)) }
{
    match node {
        Some(node) => node.links.items.len() as u64,
        None => 0,
    }
}

// Whether some node of the place answers to the click.
pub fn has_answer(nodes: &Arena<OfNodes, Node>, pos: Pos, click: Click) -> bool
    ensures { IsTrue result ↔ HasAnswer (plain_nodes nodes.now.entries) pos click }
{
    for number in 0..nodes.made() {
        if answers_at(nodes.get(Key::new(number)), pos, click) {
            return true;
        }
    }
    false
}

fn answers_at(node: Option<&Node>, pos: Pos, click: Click) -> bool
    ensures { result ≡ answers_at (option_map plain (option_copied node.entry)) pos click }
{
    match node {
        Some(node) => node.pos == pos && answers(node.kind, click),
        None => false,
    }
}

fn answers(kind: Kind, click: Click) -> bool
    ensures { result ≡ answers kind click }
{
    matches!(
        (kind, click),
        (Kind::Lever | Kind::Button { .. }, Click::Use)
            | (Kind::Plate, Click::Press)
            | (Kind::Weighted, Click::Weigh { .. })
            | (Kind::Plate | Kind::Weighted, Click::Leave)
    )
}

// Whether some node of the place is a Wire.
pub fn has_wire(nodes: &Arena<OfNodes, Node>, pos: Pos) -> bool
    ensures { IsTrue result ↔ HasWire (plain_nodes nodes.now.entries) pos }
{
    for number in 0..nodes.made() {
        if is_wire_at(nodes.get(Key::new(number)), pos) {
            return true;
        }
    }
    false
}

fn is_wire_at(node: Option<&Node>, pos: Pos) -> bool
    ensures { result ≡ is_wire_at (option_map plain (option_copied node.entry)) pos }
{
    match node {
        Some(node) => node.pos == pos && node.kind == Kind::Wire,
        None => false,
    }
}
