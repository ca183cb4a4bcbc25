//! The graph that a value or a text means.

ghost use Rattle.std.specs.Prelude.{◌≡◌, ℕ, ◌+◌, ◌<◌, ◌^◌, [], ◌∷◌, ◌++◌, Some, None, true, not, ◌&&◌, length, map, option_map, IfOk, IfErr, IfSome, OnOk};
ghost use Rattle.std.specs.List.{filter_map};
ghost use Rattle.serde_json.specs.View.{view};
ghost use Rattle.graph.specs.Graph.{Lives};
ghost use Rattle.graph.specs.Sound.{IsSound};
ghost use Rattle.graph.specs.Stored.{plain};
ghost use Rattle.graph_file.specs.Reading.{is_few, parts_of, node_of, link_of};
ghost use Rattle.graph_file.specs.GraphFile.{group_of, with_place, is_repeated, with_places, node_cause, seen_after, nodes_cause, nowhere, link_cause, links_cause, linked, cause_of, graph_of, IsGraphFile, Refuses, RefusesBytes};
ghost use Rattle.graph_file.specs.Steps.{has_place, read_cause, with_one};

use crate::entries::{LinkEntry, also_in, bare_of, link_of, list_in, number_in};
use crate::ranges::node_of;
use graph::{Graph, Group, Link, Node, Pos};
use node_arena::Key;
use report::{GraphKind, GraphRefusal};
use rp_text::NoMemory;
use serde_json::Value;
use std::alloc::Global;
use std::collections::HashSet;

// There are fewer nodes, and fewer links.
const MOST_ENTRIES: usize = 4_294_967_295;

fn node_refusal(index: u32, kind: GraphKind) -> GraphRefusal
    ensures { result ≡ GraphRefusal.Node index kind }
{
    GraphRefusal::Node { index, kind }
}

fn link_refusal(index: u32, kind: GraphKind) -> GraphRefusal
    ensures { result ≡ GraphRefusal.Link index kind }
{
    GraphRefusal::Link { index, kind }
}

fn is_few(values: &[Value]) -> bool
    ensures { result ≡ is_few (map view values.now) }
{
    values.len() < MOST_ENTRIES
}

// The values of the nodes and of the links.
fn parts_of(value: &Value) -> Option<(&[Value], &[Value])>
    ensures parts { option_map (λ parts. (map view parts.0.now, map view parts.1.now)) result ≡ parts_of (view value.now) }
    ensures few { IfSome result (λ parts. (length parts.0.now < 4294967295) × (length parts.1.now < 4294967295)) }
{
    let version = number_in(value, "redpile")?;
    let nodes = list_in(value, "nodes")?;
    let links = list_in(value, "links")?;
    if version == 1 && (is_few(nodes) && is_few(links)) {
        Some((nodes, links))
    } else {
        None
    }
}

// The node without links that a value means, apart from its place among the others.
fn read_node(alloc: Global, index: u32, value: &Value) -> Result<Node, GraphRefusal>
    ensures node { IfOk result (λ node. node_of (view value.now) ≡ Some (plain node)) }
    ensures ok { OnOk result (read_cause index (node_of (view value.now)) ≡ None) }
    ensures err { IfErr result (Refuses (read_cause index (node_of (view value.now)))) }
{
    let Some(entry) = bare_of(value) else {
        return Err(node_refusal(index, GraphKind::Field));
    };
    let Some(also) = also_in(alloc, value.get("also"))? else {
        return Err(node_refusal(index, GraphKind::Field));
    };
    match node_of(alloc, entry, &also)? {
        Some(node) => Ok(node),
        None => Err(node_refusal(index, GraphKind::Range)),
    }
}

// Adds a place, and says whether it is new.
fn add_place(places: &mut HashSet<Pos>, pos: Pos) -> Result<bool, NoMemory>
    ensures added { IfOk result (λ added. added ≡ not (has_place places.old.keys pos)) }
    ensures places { OnOk result (has_place places.new.keys ≡ with_place pos (has_place places.old.keys)) }
{
    Ok(places.insert(pos)?)
}

// Adds places, and says whether each was new.
fn add_places(places: &mut HashSet<Pos>, more: &[Pos]) -> Result<bool, NoMemory>
    ensures added { IfOk result (λ added. added ≡ not (is_repeated (has_place places.old.keys) more.now)) }
    ensures places { IfOk result (λ added. added ≡ true → has_place places.new.keys ≡ with_places more.now (has_place places.old.keys)) }
{
    for pos in more {
        if !add_place(places, *pos)? {
            return Ok(false);
        }
    }
    Ok(true)
}

// Adds the places of a node, and says whether each was new.
fn add_node_places(places: &mut HashSet<Pos>, node: &Node) -> Result<bool, NoMemory>
    ensures added { IfOk result (λ added. added ≡ not (is_repeated (has_place places.old.keys) (node.now.pos ∷ node.now.also.items.items))) }
    ensures places { IfOk result (λ added. added ≡ true → has_place places.new.keys ≡ with_places (node.now.pos ∷ node.now.also.items.items) (has_place places.old.keys)) }
{
    if !add_place(places, node.pos)? {
        return Ok(false);
    }
    add_places(places, &node.also.items)
}

// Adds the node that a value means.
fn add_node(
    alloc: Global,
    graph: &mut Graph,
    places: &mut HashSet<Pos>,
    index: u32,
    value: &Value,
) -> Result<(), GraphRefusal>
    requires { length graph.old.nodes < u32.MAX }
    ensures ok { OnOk result (node_cause index (has_place places.old.keys) (node_of (view value.now)) ≡ None) }
    ensures nodes { OnOk result (graph.new.nodes ≡ graph.old.nodes ++ node_of (view value.now) ∷ []) }
    ensures places { OnOk result (has_place places.new.keys ≡ seen_after (has_place places.old.keys) (node_of (view value.now))) }
    ensures err { IfErr result (Refuses (node_cause index (has_place places.old.keys) (node_of (view value.now)))) }
{
    let node = match read_node(alloc, index, value) {
        Ok(node) => node,
        Err(refusal) => return Err(refusal),
    };
    if !add_node_places(places, &node)? {
        return Err(node_refusal(index, GraphKind::Place));
    }
    graph.add_node(node)?;
    Ok(())
}

// The graph of these nodes without links.
fn read_nodes(alloc: Global, nodes: &[Value]) -> Result<Graph, GraphRefusal>
    requires { length nodes.now < 4294967295 }
    ensures nodes { IfOk result (λ graph. graph.nodes ≡ map node_of (map view nodes.now)) }
    ensures ok { OnOk result (nodes_cause 0 nowhere (map view nodes.now) ≡ None) }
    ensures err { IfErr result (Refuses (nodes_cause 0 nowhere (map view nodes.now))) }
{
    let mut graph = Graph::new(alloc);
    let mut places = HashSet::new(alloc);
    for (index, value) in nodes.iter().enumerate() {
        if let Err(refusal) = add_node(alloc, &mut graph, &mut places, index as u32, value) {
            return Err(refusal);
        }
    }
    Ok(graph)
}

fn group_of(group: u64) -> Group
    ensures { result ≡ group_of group }
{
    if group == 0 { Group::Back } else { Group::Side }
}

// Puts the link in, between nodes that live.
fn put_link(graph: &mut Graph, entry: LinkEntry) -> Result<(), NoMemory>
    requires range { (entry.from < 2 ^ 32) × (entry.to < 2 ^ 32) × (entry.weight < 2 ^ 8) }
    requires to { Lives graph.old.nodes entry.to }
    requires from { Lives graph.old.nodes entry.from }
    ensures { OnOk result (graph.new.nodes ≡ with_one (Some entry) graph.old.nodes) }
{
    let to = Key::new(entry.to as u32);
    let link = Link {
        from: Key::new(entry.from as u32),
        group: group_of(entry.group),
        weight: entry.weight as u8,
    };
    graph.add_link(to, link)
}

// Adds the link that a value means, between so many nodes.
fn add_link(graph: &mut Graph, index: u32, count: u64, value: &Value) -> Result<(), GraphRefusal>
    requires few { count < 2 ^ 32 }
    requires live { (key : ℕ) → key < count → Lives graph.old.nodes key }
    ensures ok { OnOk result (link_cause index count (link_of (view value.now)) ≡ None) }
    ensures nodes { OnOk result (graph.new.nodes ≡ with_one (link_of (view value.now)) graph.old.nodes) }
    ensures err { IfErr result (Refuses (link_cause index count (link_of (view value.now)))) }
{
    let Some(entry) = link_of(value) else {
        return Err(link_refusal(index, GraphKind::Field));
    };
    if entry.from >= count {
        return Err(link_refusal(index, GraphKind::End));
    }
    if entry.to >= count {
        return Err(link_refusal(index, GraphKind::End));
    }
    if entry.group > 1 {
        return Err(link_refusal(index, GraphKind::Range));
    }
    if entry.weight > 15 {
        return Err(link_refusal(index, GraphKind::Range));
    }
    put_link(graph, entry)?;
    Ok(())
}

// Adds the links between so many nodes.
fn read_links(graph: &mut Graph, count: u64, links: &[Value]) -> Result<(), GraphRefusal>
    requires few { count < 2 ^ 32 }
    requires some { length links.now < 4294967295 }
    requires live { (key : ℕ) → key < count → Lives graph.old.nodes key }
    requires bare { linked 0 [] graph.old.nodes ≡ graph.old.nodes }
    ensures nodes { OnOk result (graph.new.nodes ≡ linked 0 (filter_map link_of (map view links.now)) graph.old.nodes) }
    ensures ok { OnOk result (links_cause 0 count (map view links.now) ≡ None) }
    ensures err { IfErr result (Refuses (links_cause 0 count (map view links.now))) }
{
    for (index, value) in links.iter().enumerate() {
        if let Err(refusal) = add_link(graph, index as u32, count, value) {
            return Err(refusal);
        }
    }
    Ok(())
}

/// The graph that the value means. Want of memory may be answered for any value.
#[tactic(auto, unfolding(crate::specs::GraphFile::cause_of, crate::specs::GraphFile::graph_of))]
pub fn from_value(alloc: Global, value: &Value) -> Result<Graph, GraphRefusal>
    ensures graph { IfOk result (λ graph. graph.nodes ≡ graph_of (view value.now)) }
    ensures sound { IfOk result (λ graph. IsSound graph.nodes) }
    ensures ok { OnOk result (cause_of (view value.now) ≡ None) }
    ensures err { IfErr result (Refuses (cause_of (view value.now))) }
{
    let Some((nodes, links)) = parts_of(value) else {
        return Err(GraphRefusal::Whole);
    };
    let mut graph = match read_nodes(alloc, nodes) {
        Ok(graph) => graph,
        Err(refusal) => return Err(refusal),
    };
    if let Err(refusal) = read_links(&mut graph, nodes.len() as u64, links) {
        return Err(refusal);
    }
    Ok(graph)
}

/// The graph that the bytes mean.
pub fn from_bytes(alloc: Global, bytes: &[u8]) -> Result<Graph, GraphRefusal>
    ensures ok { IfOk result (λ graph. IsGraphFile bytes.now graph.nodes) }
    ensures sound { IfOk result (λ graph. IsSound graph.nodes) }
    ensures err { IfErr result (RefusesBytes bytes.now) }
{
    match Value::from_slice(alloc, bytes) {
        Ok(value) => from_value(alloc, &value),
        Err(error) if error.is_memory() => Err(GraphRefusal::NoMemory),
        Err(_) => Err(GraphRefusal::Json),
    }
}
