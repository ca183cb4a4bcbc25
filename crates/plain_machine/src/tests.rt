//! Graphs made by hand, what they show, and whether they play as a plain machine does.

ghost use Rattle.std.specs.Prelude.{◌≡◌, ◌<◌, IfOk, length, []};

use crate::is_good;
use circuit::{Act, Click, Pos};
use graph::Group::{Back, Side};
use graph::{Graph, Group, Kind, Link, Links, Node, NodeKey, Places};
use graph_machine::{Machine, Steps};
use rp_text::NoMemory;
use smallvec::SmallVec;
use std::alloc::Global;
use std::marker::Brand;
use std::sync::ledger::{Blank, Ledger};
use std::test::Fail;

mod plain;

/// A node: what it is, its state, whether it is a diode that faces a diode, and when its pending
/// tick is due with the priority of that.
type Row = (Kind, u8, bool, u8, u8);

/// A link: where it comes from, where it goes to, in which group, and its weight.
type LinkRow = (u32, u32, Group, u8);

fn at(x: i32) -> Pos {
    Pos { x, y: 0, z: 0 }
}

/// A node without links.
fn node(alloc: Global, pos: Pos, row: Row) -> Node
    ensures { result.links.items ≡ [] }
{
    let (kind, state, first, due, priority) = row;
    Node {
        pos,
        kind,
        state,
        first,
        due,
        priority,
        links: Links {
            items: SmallVec::new(alloc),
        },
        also: Places {
            items: Vec::new(alloc),
        },
    }
}

/// Adds a link, if its ends live.
fn add_link(graph: &mut Graph, row: LinkRow) -> Result<(), NoMemory> {
    let (from, to, group, weight) = row;
    let link = Link {
        from: NodeKey::new(from),
        group,
        weight,
    };
    if graph.node(NodeKey::new(to)).is_some() && graph.node(link.from).is_some() {
        graph.add_link(NodeKey::new(to), link)?;
    }
    Ok(())
}

/// A graph of these nodes, numbered from 0, each at the place of its number, and of these links.
fn graph_of(alloc: Global, nodes: &[Row], links: &[LinkRow]) -> Result<Graph, NoMemory>
    requires { length nodes.now < 100 }
{
    let mut graph = Graph::new(alloc);
    for row in nodes {
        let x = graph.node_count().min(100) as i32;
        graph.add_node(node(alloc, at(x), *row))?;
    }
    for row in links {
        add_link(&mut graph, *row)?;
    }
    Ok(graph)
}

fn zeros(alloc: Global, count: usize) -> Result<Vec<u8>, NoMemory>
    ensures { IfOk result (λ values. length values.items ≡ count) }
{
    Ok(vec![in alloc; 0u8; count]?)
}

/// Appends what the outputs show.
fn note_view(machine: &Machine, views: &mut Vec<u8>) -> Result<(), NoMemory> {
    let mut values = zeros(*views.allocator(), machine.output_count())?;
    machine.view(values.as_mut_slice());
    views.extend_from_slice(&values)?;
    Ok(())
}

fn tick<L: Ledger>(machine: &mut Machine, steps: &mut Steps<L>) {
    if machine.time() < 100 && machine.events() < 1000 {
        machine.tick(steps);
    }
}

fn click<L: Ledger>(machine: &mut Machine, pos: Pos, click: Click, steps: &mut Steps<L>) {
    if machine.events() < 1000 {
        let _taken = machine.click(pos, click, steps).is_ok();
    }
}

/// All views of a run, one after another.
fn play<L: Ledger>(
    alloc: Global,
    machine: &mut Machine,
    acts: &[Act],
    steps: &mut Steps<L>,
) -> Result<Vec<u8>, NoMemory> {
    let mut views = Vec::new(alloc);
    note_view(machine, &mut views)?;
    for act in acts {
        match *act {
            Act::Click { pos, click: how } => {
                click(machine, pos, how, steps);
                note_view(machine, &mut views)?;
            }
            Act::Ticks { count } => {
                for _ in 0..count {
                    tick(machine, steps);
                    note_view(machine, &mut views)?;
                }
            }
        }
    }
    Ok(views)
}

fn are_events(machine: &Machine, events: Option<u64>) -> bool {
    match events {
        Some(events) => machine.events() == events,
        None => true,
    }
}

/// Whether the run of a graph has these views, and so many events if their number is given.
fn plays<L: Ledger>(
    alloc: Global,
    graph: &Graph,
    acts: &[Act],
    views: &[u8],
    events: Option<u64>,
    blank: Blank,
) -> Result<bool, NoMemory>
    requires name { blank.name ≡ L.name }
    requires parts { blank.parts ≡ L.parts }
    requires some { 0 < L.parts }
{
    if !is_good(graph)? {
        return Ok(false);
    }
    let mut steps: Steps<L> = Steps::new(blank);
    let mut machine = Machine::start(alloc, graph)?;
    let shown = play(alloc, &mut machine, acts, &mut steps)?;
    Ok(shown.as_slice() == views && are_events(&machine, events))
}

/// The same of the graph of these nodes and links.
fn runs(
    alloc: Global,
    nodes: &[Row],
    links: &[LinkRow],
    acts: &[Act],
    views: &[u8],
    events: Option<u64>,
) -> Result<bool, NoMemory>
    requires { length nodes.now < 100 }
{
    let graph = graph_of(alloc, nodes, links)?;
    plays::<Brand>(alloc, &graph, acts, views, events, Blank::new(1))
}

/// Whether the run of a graph is the same as that of a plain machine.
fn is_plain(alloc: Global, graph: &Graph, acts: &[Act]) -> Result<bool, NoMemory> {
    let (views, events) = plain::play(alloc, graph, acts)?;
    plays::<Brand>(alloc, graph, acts, &views, Some(events), Blank::new(1))
}

/// Whether a graph plays as a plain machine does. A lever is behind `driving` and a node `beside`
/// is at its side, and it drives an output of each sort.
fn drives(alloc: Global, beside: Row, driving: Row) -> Result<bool, NoMemory> {
    let graph = graph_of(
        alloc,
        &[LEVER, beside, driving, LAMP, TRAPDOOR, NOTE, WIRE],
        &[
            (0, 2, Back, 2),
            (1, 2, Side, 1),
            (2, 3, Back, 0),
            (2, 4, Back, 14),
            (2, 5, Back, 9),
            (2, 6, Back, 3),
            (1, 6, Back, 4),
        ],
    )?;
    is_plain(
        alloc,
        &graph,
        &[
            use_at(0),
            ticks(6),
            use_at(1),
            click_at(1, Click::Press),
            click_at(1, Click::Weigh { weight: 7 }),
            ticks(6),
            use_at(0),
            ticks(1),
            use_at(0),
            ticks(8),
            use_at(2),
            click_at(2, Click::Press),
            click_at(2, Click::Weigh { weight: 12 }),
            ticks(6),
            click_at(1, Click::Leave),
            use_at(0),
            ticks(12),
        ],
    )
}

/// The same of a graph in which a lever is behind two nodes, `second` is behind `first`, and
/// `first` is in this group of `second`.
fn follows(alloc: Global, first: Row, group: Group, second: Row) -> Result<bool, NoMemory> {
    let graph = graph_of(
        alloc,
        &[LEVER, first, second, LAMP, WIRE],
        &[
            (0, 1, Back, 0),
            (0, 2, Back, 1),
            (1, 2, group, 2),
            (2, 1, Back, 1),
            (2, 3, Back, 0),
            (2, 4, Back, 0),
            (1, 4, Back, 7),
        ],
    )?;
    is_plain(
        alloc,
        &graph,
        &[
            ticks(3),
            use_at(0),
            ticks(8),
            use_at(0),
            ticks(1),
            use_at(0),
            ticks(9),
            use_at(0),
            ticks(9),
        ],
    )
}

fn click_at(x: i32, click: Click) -> Act {
    Act::Click { pos: at(x), click }
}

fn use_at(x: i32) -> Act {
    Act::Click {
        pos: at(x),
        click: Click::Use,
    }
}

fn ticks(count: u32) -> Act {
    Act::Ticks { count }
}

const LEVER: Row = (Kind::Lever, 0, false, 0, 0);

const TORCH: Row = (Kind::Torch, 0, false, 0, 0);

const LIT_TORCH: Row = (Kind::Torch, 1, false, 0, 0);

const LAMP: Row = (Kind::Lamp, 0, false, 0, 0);

const LIT_LAMP: Row = (Kind::Lamp, 1, false, 0, 0);

const TRAPDOOR: Row = (Kind::Trapdoor, 0, false, 0, 0);

const NOTE: Row = (Kind::Note, 0, false, 0, 0);

const WIRE: Row = (Kind::Wire, 0, false, 0, 0);

const PLATE: Row = (Kind::Plate, 0, false, 0, 0);

const WEIGHTED: Row = (Kind::Weighted, 3, false, 0, 0);

const CONSTANT: Row = (Kind::Constant, 9, false, 0, 0);

const BUTTON: Row = (Kind::Button { delay: 10 }, 0, false, 0, 0);

const PRESSED_BUTTON: Row = (Kind::Button { delay: 15 }, 1, false, 7, 3);

const REPEATER: Row = (Kind::Repeater { delay: 1 }, 0, false, 0, 0);

const FIRST_REPEATER: Row = (Kind::Repeater { delay: 1 }, 0, true, 0, 0);

const SLOW_REPEATER: Row = (Kind::Repeater { delay: 4 }, 0, false, 0, 0);

const COMPARATOR: Row = (
    Kind::Comparator {
        subtract: false,
        direct: None,
        far: None,
    },
    0,
    false,
    0,
    0,
);

/// A comparator that gives 4.
fn comparator(subtract: bool, direct: Option<u8>, far: Option<u8>) -> Row {
    let kind = Kind::Comparator {
        subtract,
        direct,
        far,
    };
    (kind, 4, false, 0, 0)
}

// Two lamps on one torch go off two ticks after it, which goes off one tick after its lever.
#[test]
fn twins(rt: HostRuntime) -> Result<(), Fail> {
    assert!(rt;
        runs(
            rt.alloc(),
            &[LIT_LAMP, LIT_LAMP, LIT_TORCH, LEVER],
            &[(2, 0, Back, 0), (2, 1, Back, 0), (3, 2, Back, 0)],
            &[use_at(3), ticks(3)],
            &[1, 1, 1, 1, 1, 1, 1, 1, 0, 0],
            Some(4),
        )?
    );
    Ok(())
}

// A torch that waits already isn't given a tick by the lever.
#[test]
fn twins_with_a_pending_tick(rt: HostRuntime) -> Result<(), Fail> {
    assert!(rt;
        runs(
            rt.alloc(),
            &[
                LIT_LAMP,
                LIT_LAMP,
                LIT_TORCH,
                (Kind::Torch, 1, false, 5, 3),
                LEVER
            ],
            &[
                (2, 0, Back, 0),
                (3, 1, Back, 0),
                (4, 2, Back, 0),
                (4, 3, Back, 0)
            ],
            &[use_at(4), ticks(7)],
            &[1, 1, 1, 1, 1, 1, 1, 1, 0, 1, 0, 1, 0, 1, 0, 1, 0, 0],
            Some(5),
        )?
    );
    Ok(())
}

// A repeater is locked before its back comes on.
#[test]
fn back_and_lock(rt: HostRuntime) -> Result<(), Fail> {
    assert!(rt;
        runs(
            rt.alloc(),
            &[LEVER, FIRST_REPEATER, FIRST_REPEATER, REPEATER, LAMP],
            &[
                (0, 1, Back, 1),
                (0, 2, Back, 1),
                (2, 3, Back, 0),
                (1, 3, Side, 0),
                (3, 4, Back, 0)
            ],
            &[use_at(0), ticks(3)],
            &[0, 0, 0, 0, 0],
            None,
        )?
    );
    Ok(())
}

// A pulse that is shorter than the delay goes through.
#[test]
fn short_pulse(rt: HostRuntime) -> Result<(), Fail> {
    assert!(rt;
        runs(
            rt.alloc(),
            &[LEVER, SLOW_REPEATER, LAMP],
            &[(0, 1, Back, 0), (1, 2, Back, 0)],
            &[use_at(0), ticks(1), use_at(0), ticks(9)],
            &[0, 0, 0, 0, 0, 0, 1, 1, 1, 1, 1, 1, 0],
            Some(5),
        )?
    );
    Ok(())
}

#[test]
fn clock_that_nobody_sees(rt: HostRuntime) -> Result<(), Fail> {
    assert!(rt;
        runs(
            rt.alloc(),
            &[TORCH],
            &[(0, 0, Back, 1)],
            &[ticks(2)],
            &[],
            Some(2)
        )?
    );
    Ok(())
}

#[test]
fn stone_button(rt: HostRuntime) -> Result<(), Fail> {
    assert!(rt;
        runs(
            rt.alloc(),
            &[BUTTON, LAMP],
            &[(0, 1, Back, 0)],
            &[use_at(0), use_at(0), ticks(12)],
            &[0, 1, 1, 1, 1, 1, 1, 1, 1, 1, 1, 1, 1, 1, 0],
            Some(4),
        )?
    );
    Ok(())
}

#[test]
fn merged_comparators(rt: HostRuntime) -> Result<(), Fail> {
    assert!(rt;
        runs(
            rt.alloc(),
            &[LAMP, COMPARATOR, LEVER, LAMP],
            &[(1, 0, Back, 0), (2, 1, Back, 0), (1, 3, Back, 0)],
            &[use_at(2), ticks(1)],
            &[0, 0, 0, 0, 1, 1],
            Some(2),
        )?
    );
    Ok(())
}

#[test]
fn torches_and_repeaters(rt: HostRuntime) -> Result<(), Fail> {
    let alloc = rt.alloc();
    assert!(rt; drives(alloc, LEVER, TORCH)?);
    assert!(rt; drives(alloc, BUTTON, LIT_TORCH)?);
    assert!(rt; drives(alloc, PRESSED_BUTTON, (Kind::Torch, 0, false, 3, 3))?);
    assert!(rt; drives(alloc, LEVER, REPEATER)?);
    assert!(rt; drives(alloc, BUTTON, (Kind::Repeater { delay: 2 }, 0, false, 0, 0))?);
    assert!(rt; drives(alloc, PLATE, (Kind::Repeater { delay: 3 }, 1, false, 0, 0))?);
    assert!(rt; drives(alloc, WEIGHTED, SLOW_REPEATER)?);
    assert!(rt; drives(alloc, LEVER, (Kind::Repeater { delay: 4 }, 1, true, 2, 1))?);
    assert!(rt; drives(alloc, BUTTON, (Kind::Repeater { delay: 4 }, 0, false, 6, 2))?);
    Ok(())
}

#[test]
fn comparators_and_the_rest(rt: HostRuntime) -> Result<(), Fail> {
    let alloc = rt.alloc();
    assert!(rt; drives(alloc, WEIGHTED, COMPARATOR)?);
    assert!(rt; drives(alloc, CONSTANT, COMPARATOR)?);
    assert!(rt; drives(alloc, PLATE, comparator(true, None, None))?);
    assert!(rt; drives(alloc, WEIGHTED, comparator(true, None, Some(10)))?);
    assert!(rt; drives(alloc, LEVER, comparator(false, Some(6), Some(2)))?);
    assert!(rt; drives(alloc, CONSTANT, comparator(true, Some(12), None))?);
    assert!(rt; drives(alloc, BUTTON, (Kind::Lamp, 1, false, 2, 3))?);
    assert!(rt; drives(alloc, PLATE, PRESSED_BUTTON)?);
    assert!(rt; drives(alloc, BUTTON, WEIGHTED)?);
    assert!(rt; drives(alloc, LEVER, PLATE)?);
    assert!(rt; drives(alloc, BUTTON, CONSTANT)?);
    assert!(rt; drives(alloc, BUTTON, WIRE)?);
    Ok(())
}

// Where both fire in one tick, their priorities say which is first.
#[test]
fn locks_and_clocks(rt: HostRuntime) -> Result<(), Fail> {
    let alloc = rt.alloc();
    assert!(rt; follows(alloc, FIRST_REPEATER, Side, REPEATER)?);
    assert!(rt; follows(alloc, FIRST_REPEATER, Side, SLOW_REPEATER)?);
    assert!(rt; follows(alloc, FIRST_REPEATER, Back, LIT_TORCH)?);
    assert!(rt; follows(alloc, FIRST_REPEATER, Side, COMPARATOR)?);
    assert!(rt; follows(alloc, FIRST_REPEATER, Side, comparator(true, None, None))?);
    Ok(())
}
