//! The links into the nodes of a graph.

ghost use Rattle.std.specs.Prelude.{◌≡◌, ℕ, ◌+◌, ◌^◌, ◌<◌, ◌≤◌, [], ◌∷◌, ◌++◌, All, List, OnOk, OnErr, IfOk, IsTrue, length, map};
ghost use Rattle.circuit.specs.declared.Pos.{Pos};
ghost use Rattle.std.specs.Option.{option_map_or};
ghost use Rattle.build.specs.Plan.{in_box, cell_of};
ghost use Rattle.cell_numbers.specs.Numbers.{number_in};
ghost use Rattle.graph.specs.Graph.{node_at, Lives, spare_of, KeepsRoom};
ghost use Rattle.graph.specs.RawNodes.{bare_nodes};
ghost use Rattle.input_search.specs.Added.{plain_lists, list_at, IsFitting, AreFilled};
ghost use Rattle.input_search.specs.Raw.{IsBare, raw};
ghost use Rattle.input_search.specs.Numbers.{node_place, node_number, IsSpread, AreThere, AreNodeCells, AreRanks, AreLinks, AreLists, numbered, numbered_links};
ghost use Rattle.input_search.specs.Wiring.{IsWiring};

use crate::add::add_all;
use crate::readers::{push_back_links, push_side_links};
use crate::search::{Origin, Search};
use crate::wires::Wiring;
use build::Build;
use cell_numbers::CellNumbers;
use circuit::Pos;
use graph::{Graph, Group, Link, NodeKey};
use node_arena::Key;
use rp_text::NoMemory;
use std::alloc::Global;
use wiring::Tap;

// The place of the node of a key.
fn place_of_node(graph: &Graph, key: NodeKey) -> Option<Pos>
    ensures { result ≡ node_place (node_at graph.now.nodes key) }
{
    match graph.node(key) {
        Some(node) => Some(node.pos),
        None => None,
    }
}

// Lists the cell of a place behind those of places before it.
fn list_place(numbers: &mut CellNumbers, build: &Build, pos: Pos) -> Result<(), NoMemory>
    requires inside { IsTrue (in_box build.now pos) }
    requires rising { All (λ cell. cell < cell_of build.now pos) numbers.old }
    ensures { OnOk result (numbers.new ≡ numbers.old ++ cell_of build.now pos ∷ []) }
{
    let _cells = build.cells();
    match build.cell(pos) {
        Some(cell) => numbers.push(cell)?,
        None => unreachable!(),
    }
    Ok(())
}

// Lists the cell of the node of a number behind those of the nodes before it.
fn number_node(
    numbers: &mut CellNumbers,
    build: &Build,
    graph: &Graph,
    number: u32,
) -> Result<(), NoMemory>
    requires spread { IsSpread build.now graph.now.nodes }
    requires there { AreThere graph.now.nodes (number + 1) }
    requires before { AreNodeCells build.now graph.now.nodes number numbers.old }
    ensures { OnOk result (AreNodeCells build.now graph.now.nodes (number + 1) numbers.new) }
{
    match place_of_node(graph, Key::new(number)) {
        Some(pos) => list_place(numbers, build, pos),
        None => unreachable!(),
    }
}

// The cells in which the first nodes stand.
fn numbers_of(
    alloc: Global,
    build: &Build,
    graph: &Graph,
    count: u32,
) -> Result<CellNumbers, NoMemory>
    requires spread { IsSpread build.now graph.now.nodes }
    requires there { AreThere graph.now.nodes count }
    ensures { IfOk result (λ numbers. AreRanks build.now graph.now.nodes count numbers) }
{
    let mut numbers = CellNumbers::new(alloc, build.cells())?;
    for number in 0..count {
        number_node(&mut numbers, build, graph, number)?;
    }
    Ok(numbers)
}

// The number of the node in a cell.
fn number_in(numbers: &CellNumbers, cell: usize) -> u32
    requires { cell < 2 ^ 32 }
    ensures { result ≡ option_map_or (λ n. n) (number_in numbers.now cell) 0 }
{
    match numbers.get(cell) {
        Some(number) => number as u32,
        None => 0,
    }
}

// The number of the node of a place.
fn number_at(numbers: &CellNumbers, build: &Build, pos: Pos) -> u32
    ensures { result ≡ node_number build.now numbers.now pos }
{
    let _cells = build.cells();
    match build.cell(pos) {
        Some(cell) => number_in(numbers, cell),
        None => 0,
    }
}

fn numbered(numbers: &CellNumbers, build: &Build, group: Group, origin: Origin) -> Link
    ensures { result ≡ numbered build.now numbers.now group origin }
{
    Link {
        from: Key::new(number_at(numbers, build, origin.place)),
        group,
        weight: origin.weight,
    }
}

// Appends these links, with the numbers of the nodes that they come from.
fn push_numbered(
    links: &mut Vec<Link>,
    numbers: &CellNumbers,
    build: &Build,
    group: Group,
    origins: &[Origin],
) -> Result<(), NoMemory>
    ensures { OnOk result (links.new.items ≡ links.old.items ++ map (numbered build.now numbers.now group) origins.now) }
{
    for origin in origins {
        links.push(numbered(numbers, build, group, *origin))?;
    }
    Ok(())
}

// The lists that are filled anew for each node.
#[derive(Drop)]
struct Scratch {
    origins: Vec<Origin>,
    taps: Vec<Tap>,
    search: Search,
}

impl Scratch {
    fn new(alloc: Global) -> Scratch {
        Scratch {
            origins: Vec::new(alloc),
            taps: Vec::new(alloc),
            search: Search::new(alloc),
        }
    }
}

// The links into the node of a place, Back before Side.
fn links_at(
    alloc: Global,
    scratch: &mut Scratch,
    numbers: &CellNumbers,
    build: &Build,
    wiring: &mut Wiring,
    reader: Pos,
) -> Result<Vec<Link>, NoMemory>
    requires wiring { IsWiring build.now wiring.old }
    requires inside { IsTrue (in_box build.now reader) }
    ensures wiring { OnOk result (IsWiring build.now wiring.new) }
    ensures links { IfOk result (λ links. links.items ≡ numbered_links build.now numbers.now reader) }
{
    let Scratch {
        origins,
        taps,
        search,
    } = scratch;
    let mut links = Vec::new(alloc);
    origins.clear();
    push_back_links(origins, taps, search, build, wiring, reader)?;
    push_numbered(&mut links, numbers, build, Group::Back, origins)?;
    origins.clear();
    push_side_links(origins, taps, search, build, wiring, reader)?;
    push_numbered(&mut links, numbers, build, Group::Side, origins)?;
    Ok(links)
}

// The links into the node of this number.
fn links_of_node(
    alloc: Global,
    scratch: &mut Scratch,
    numbers: &CellNumbers,
    build: &Build,
    wiring: &mut Wiring,
    graph: &Graph,
    number: u32,
) -> Result<Vec<Link>, NoMemory>
    requires wiring { IsWiring build.now wiring.old }
    requires spread { IsSpread build.now graph.now.nodes }
    ensures wiring { OnOk result (IsWiring build.now wiring.new) }
    ensures links { IfOk result (λ links. AreLinks build.now numbers.now (node_place (node_at graph.now.nodes number)) links.items) }
{
    match place_of_node(graph, Key::new(number)) {
        Some(pos) => links_at(alloc, scratch, numbers, build, wiring, pos),
        None => Ok(Vec::new(alloc)),
    }
}

// The links into each of the first nodes.
fn lists_of(
    alloc: Global,
    build: &Build,
    graph: &Graph,
    count: u32,
    numbers: &CellNumbers,
) -> Result<Vec<Vec<Link>>, NoMemory>
    requires { IsSpread build.now graph.now.nodes }
    ensures length { IfOk result (λ lists. length lists.items ≡ count) }
    ensures links { IfOk result (λ lists. AreLists build.now graph.now.nodes numbers.now count (map (λ list. list.items) lists.items)) }
{
    let mut wiring = Wiring::new(alloc, build)?;
    let mut scratch = Scratch::new(alloc);
    let mut lists = Vec::new(alloc);
    for number in 0..count {
        let list = links_of_node(
            alloc,
            &mut scratch,
            numbers,
            build,
            &mut wiring,
            graph,
            number,
        )?;
        lists.push(list)?;
    }
    Ok(lists)
}

// The number of nodes of a build.
fn count_of(build: &Build, graph: &Graph) -> u32
    requires { IsBare build.now graph.now.nodes }
    ensures { result ≡ length graph.now.nodes }
{
    let _cells = build.cells();
    graph.node_count() as u32
}

fn list_at(lists: &[Vec<Link>], number: u32) -> &[Link]
    ensures { result.now ≡ list_at lists.now number }
{
    match lists.get(number as usize) {
        Some(list) => list,
        None => &[],
    }
}

// Makes room for these links in a node.
fn reserve(graph: &mut Graph, to: NodeKey, links: &[Link]) -> Result<(), NoMemory>
    requires { Lives graph.old.nodes to }
    ensures nodes { graph.new.nodes ≡ graph.old.nodes }
    ensures room { OnOk result (length links.now ≤ spare_of graph.new to) }
    ensures others { KeepsRoom graph.old graph.new }
{
    match u32::try_from(links.len()) {
        Ok(more) => graph.reserve_links(to, more),
        Err(_) => Err(NoMemory),
    }
}

// Makes room for each list in the node of its number.
fn reserve_all(graph: &mut Graph, lists: &[Vec<Link>], count: u32) -> Result<(), NoMemory>
    requires { (key : ℕ) → key < count → Lives graph.old.nodes key }
    ensures nodes { graph.new.nodes ≡ graph.old.nodes }
    ensures room { OnOk result ((key : ℕ) → key < count → length (list_at lists.now key) ≤ spare_of graph.new key) }
{
    for number in 0..count {
        reserve(graph, Key::new(number), list_at(lists, number))?;
    }
    Ok(())
}

// Puts each list into the node of its number.
fn add_lists(graph: &mut Graph, lists: &[Vec<Link>], count: u32)
    requires all { length lists.now ≡ count }
    requires fitting { IsFitting graph.old.nodes lists.now }
    requires room { (key : ℕ) → key < count → length (list_at lists.now key) ≤ spare_of graph.old key }
    ensures { AreFilled (plain_lists lists.now) graph.old.nodes graph.new.nodes }
{
    for number in 0..count {
        add_all(graph, Key::new(number), list_at(lists, number));
    }
}

/// Links the nodes of a build: puts into each the links from what gives power to it, Back before
/// Side. All is found before the first link goes in.
pub fn link(alloc: Global, build: &Build, graph: &mut Graph) -> Result<(), NoMemory>
    requires { IsBare build.now graph.old.nodes }
    ensures linked { OnOk result ((marks : List Pos) → graph.old.nodes ≡ bare_nodes build.now marks → graph.new.nodes ≡ raw build.now marks) }
    ensures err { OnErr result (graph.new.nodes ≡ graph.old.nodes) }
{
    let count = count_of(build, graph);
    let numbers = numbers_of(alloc, build, graph, count)?;
    let lists = lists_of(alloc, build, graph, count, &numbers)?;
    reserve_all(graph, &lists, count)?;
    add_lists(graph, &lists, count);
    Ok(())
}
