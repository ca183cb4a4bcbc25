//! A graph as JSON.

ghost use Rattle.std.specs.Prelude.{◌≡◌, ℕ, ◌+◌, ◌<◌, ◌≤◌, ◌^◌, [], ◌∷◌, ◌++◌, None, Option, map, option_map, option_copied, get_or, IfOk, OnOk};
ghost use Rattle.serde_json.specs.Data.{put};
ghost use Rattle.serde_json.specs.View.{view, members_view};
ghost use Rattle.graph.specs.Graph.{node_at};
ghost use Rattle.graph.specs.GraphText.{kind_text};
ghost use Rattle.graph.specs.Stored.{plain};
ghost use Rattle.graph_file.specs.Json.{own_number, number_after, number_of, packed, whole_data, count, list, place_data, with_strength, with_detail, node_members, node_data, entries_data, group_number, json, json_text};
ghost use Rattle.graph_file.specs.Sending.{entry_data, sent_link, sent_at, sent_links};

use graph::{Graph, Group, Kind, Link, Node, Pos, count_keys};
use node_arena::Key;
use rp_text::NoMemory;
use serde_json::{Map, Value, put};
use std::alloc::Global;

// The members of an object.
type Members = Map<String, Value>;

fn place_value(alloc: Global, pos: Pos) -> Result<Value, NoMemory>
    ensures { IfOk result (λ value. view value ≡ place_data pos) }
{
    let mut list = Vec::new(alloc);
    list.push(Value::from(pos.x))?;
    list.push(Value::from(pos.y))?;
    list.push(Value::from(pos.z))?;
    Ok(Value::from(list))
}

fn places_value(alloc: Global, places: &[Pos]) -> Result<Value, NoMemory>
    ensures { IfOk result (λ value. view value ≡ list (map place_data places.now)) }
{
    let mut list = Vec::new(alloc);
    for pos in places {
        list.push(place_value(alloc, *pos)?)?;
    }
    Ok(Value::from(list))
}

fn kind_text(kind: Kind) -> &'static str
    ensures { result.now ≡ kind_text kind }
{
    match kind {
        Kind::Lever => "lever",
        Kind::Button { .. } => "button",
        Kind::Plate => "plate",
        Kind::Weighted => "weighted",
        Kind::Torch => "torch",
        Kind::Repeater { .. } => "repeater",
        Kind::Comparator { .. } => "comparator",
        Kind::Lamp => "lamp",
        Kind::Trapdoor => "trapdoor",
        Kind::Note => "note",
        Kind::Wire => "wire",
        Kind::Constant => "constant",
    }
}

fn put_strength(
    alloc: Global,
    members: &mut Members,
    key: &str,
    strength: Option<u8>,
) -> Result<(), NoMemory>
    ensures { OnOk result (members_view members.new.entries ≡ with_strength key.now strength (members_view members.old.entries)) }
{
    match strength {
        Some(strength) => Ok(put(members, alloc, key, Value::from(strength))?),
        None => Ok(()),
    }
}

fn put_comparator(
    alloc: Global,
    members: &mut Members,
    subtract: bool,
    direct: Option<u8>,
    far: Option<u8>,
) -> Result<(), NoMemory>
    ensures { OnOk result (members_view members.new.entries ≡ with_detail (Kind.Comparator subtract direct far) (members_view members.old.entries)) }
{
    put(members, alloc, "subtract", Value::from(subtract))?;
    put_strength(alloc, members, "direct", direct)?;
    put_strength(alloc, members, "far", far)
}

// Adds what a kind has beside its name.
fn put_detail(alloc: Global, members: &mut Members, kind: Kind) -> Result<(), NoMemory>
    ensures { OnOk result (members_view members.new.entries ≡ with_detail kind (members_view members.old.entries)) }
{
    match kind {
        Kind::Button { delay } => Ok(put(members, alloc, "delay", Value::from(delay))?),
        Kind::Repeater { delay } => Ok(put(members, alloc, "delay", Value::from(delay))?),
        Kind::Comparator {
            subtract,
            direct,
            far,
        } => put_comparator(alloc, members, subtract, direct, far),
        Kind::Lever
        | Kind::Plate
        | Kind::Weighted
        | Kind::Torch
        | Kind::Lamp
        | Kind::Trapdoor
        | Kind::Note
        | Kind::Wire
        | Kind::Constant => Ok(()),
    }
}

fn node_members(alloc: Global, node: &Node) -> Result<Members, NoMemory>
    ensures { IfOk result (λ members. members_view members.entries ≡ node_members (plain node.now)) }
{
    let mut members = Map::new(alloc);
    put(&mut members, alloc, "state", Value::from(node.state))?;
    put(&mut members, alloc, "priority", Value::from(node.priority))?;
    let kind = Value::try_from_str(alloc, kind_text(node.kind))?;
    put(&mut members, alloc, "kind", kind)?;
    put(&mut members, alloc, "first", Value::from(node.first))?;
    put(&mut members, alloc, "due", Value::from(node.due))?;
    put(&mut members, alloc, "at", place_value(alloc, node.pos)?)?;
    let also = places_value(alloc, &node.also.items)?;
    put(&mut members, alloc, "also", also)?;
    Ok(members)
}

fn node_value(alloc: Global, node: &Node) -> Result<Value, NoMemory>
    ensures { IfOk result (λ value. view value ≡ node_data (plain node.now)) }
{
    let mut members = node_members(alloc, node)?;
    put_detail(alloc, &mut members, node.kind)?;
    Ok(Value::from(members))
}

fn push_node(alloc: Global, nodes: &mut Vec<Value>, node: Option<&Node>) -> Result<(), NoMemory>
    ensures { OnOk result (map view nodes.new.items ≡ map view nodes.old.items ++ entry_data (option_map plain (option_copied node.entry))) }
{
    if let Some(node) = node {
        nodes.push(node_value(alloc, node)?)?;
    }
    Ok(())
}

// The values of the nodes below this key.
fn node_values(alloc: Global, graph: &Graph, count: usize) -> Result<Vec<Value>, NoMemory>
    requires few { count ≤ 2 ^ 32 }
    requires past { (key : ℕ) → count ≤ key → node_at graph.now.nodes key ≡ None }
    ensures { IfOk result (λ values. map view values.items ≡ entries_data graph.now.nodes) }
{
    let mut nodes = Vec::new(alloc);
    for key in 0..count {
        push_node(alloc, &mut nodes, graph.node(Key::new(key as u32)))?;
    }
    Ok(nodes)
}

fn group_number(group: Group) -> u8
    ensures { result ≡ group_number group }
{
    match group {
        Group::Back => 0,
        Group::Side => 1,
    }
}

// The number of a key.
fn number_at(numbers: &[u64], key: usize) -> u64
    ensures { result ≡ get_or numbers.now key 0 }
{
    numbers.get(key).copied().unwrap_or(0)
}

fn link_value(alloc: Global, numbers: &[u64], to: u64, link: Link) -> Result<Value, NoMemory>
    ensures { IfOk result (λ value. view value ≡ sent_link (λ key. get_or numbers.now key 0) to link) }
{
    let from = number_at(numbers, link.from.number() as usize);
    let mut list = Vec::new(alloc);
    list.push(Value::from(from))?;
    list.push(Value::from(to))?;
    list.push(Value::from(group_number(link.group)))?;
    list.push(Value::from(link.weight))?;
    Ok(Value::from(list))
}

fn push_links(
    alloc: Global,
    values: &mut Vec<Value>,
    numbers: &[u64],
    to: u64,
    links: &[Link],
) -> Result<(), NoMemory>
    ensures { OnOk result (map view values.new.items ≡ map view values.old.items ++ map (sent_link (λ key. get_or numbers.now key 0) to) links.now) }
{
    for link in links {
        values.push(link_value(alloc, numbers, to, *link)?)?;
    }
    Ok(())
}

fn push_links_at(
    alloc: Global,
    values: &mut Vec<Value>,
    numbers: &[u64],
    to: u64,
    node: Option<&Node>,
) -> Result<(), NoMemory>
    ensures { OnOk result (map view values.new.items ≡ map view values.old.items ++ sent_at (λ key. get_or numbers.now key 0) to (option_map plain (option_copied node.entry))) }
{
    match node {
        Some(node) => push_links(alloc, values, numbers, to, &node.links.items),
        None => Ok(()),
    }
}

// The values of the links to the nodes below this key.
fn link_values(
    alloc: Global,
    graph: &Graph,
    count: usize,
    numbers: &[u64],
) -> Result<Vec<Value>, NoMemory>
    requires few { count ≤ 2 ^ 32 }
    requires past { (key : ℕ) → count ≤ key → node_at graph.now.nodes key ≡ None }
    ensures { IfOk result (λ values. map view values.items ≡ sent_links (λ key. get_or numbers.now key 0) 0 graph.now.nodes) }
{
    let mut values = Vec::new(alloc);
    for key in 0..count {
        let to = number_at(numbers, key);
        push_links_at(
            alloc,
            &mut values,
            numbers,
            to,
            graph.node(Key::new(key as u32)),
        )?;
    }
    Ok(values)
}

// Adds the number of one key more, and gives the next number.
fn push_number(numbers: &mut Vec<u64>, next: u64, node: Option<&Node>) -> Result<u64, NoMemory>
    requires { next < 2 ^ 32 }
    ensures numbers { OnOk result (numbers.new.items ≡ numbers.old.items ++ own_number next (option_map plain (option_copied node.entry)) ∷ []) }
    ensures next { IfOk result (λ after. after ≡ number_after next (option_map plain (option_copied node.entry))) }
    ensures few { IfOk result (λ after. after ≤ next + 1) }
{
    match node {
        Some(_) => {
            numbers.push(next)?;
            Ok(next + 1)
        }
        None => {
            numbers.push(0)?;
            Ok(next)
        }
    }
}

// The numbers of the keys below this one.
fn numbers_of(alloc: Global, graph: &Graph, count: usize) -> Result<Vec<u64>, NoMemory>
    requires few { count ≤ 2 ^ 32 }
    requires past { (key : ℕ) → count ≤ key → node_at graph.now.nodes key ≡ None }
    ensures { IfOk result (λ numbers. (λ (key : ℕ). get_or numbers.items key 0) ≡ number_of graph.now.nodes) }
{
    let mut numbers = Vec::new(alloc);
    let mut next = 0;
    for key in 0..count {
        next = push_number(&mut numbers, next, graph.node(Key::new(key as u32)))?;
    }
    Ok(numbers)
}

fn whole(alloc: Global, links: Vec<Value>, nodes: Vec<Value>) -> Result<Value, NoMemory>
    ensures { IfOk result (λ value. view value ≡ whole_data (map view links.items) (map view nodes.items)) }
{
    let mut members = Map::new(alloc);
    put(&mut members, alloc, "redpile", Value::from(1u64))?;
    put(&mut members, alloc, "nodes", Value::from(nodes))?;
    put(&mut members, alloc, "links", Value::from(links))?;
    Ok(Value::from(members))
}

/// The graph as JSON, its nodes renumbered from 0.
pub fn to_value(alloc: Global, graph: &Graph) -> Result<Value, NoMemory>
    ensures { IfOk result (λ value. view value ≡ json (packed graph.now.nodes)) }
{
    let count = count_keys(graph)?;
    let numbers = numbers_of(alloc, graph, count)?;
    let nodes = node_values(alloc, graph, count)?;
    let links = link_values(alloc, graph, count, &numbers)?;
    whole(alloc, links, nodes)
}

/// The same as one line of text.
pub fn to_text(alloc: Global, graph: &Graph) -> Result<Vec<u8>, NoMemory>
    ensures { IfOk result (λ text. text.items ≡ json_text graph.now.nodes) }
{
    let mut text = to_value(alloc, graph)?.to_vec(alloc)?;
    text.push(b'\n')?;
    Ok(text)
}
