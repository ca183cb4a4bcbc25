//! The run of the twins, by calls and as a whole.

ghost use Rattle.std.specs.Prelude.{◌≡◌, ◌<◌, IfOk, []};
ghost use Rattle.bounded_reads.specs.Twins.{twins, acts, node};
ghost use Rattle.graph.specs.Stored.{plain};
ghost use Rattle.graph.specs.declared.Group.TheVariants.{Back};

use crate::{LEVER, read_by_calls, read_by_play};
use build::{OutKind, OutPlace};
use circuit::Pos;
use graph::{Graph, Group, Kind, Link, Links, Node, Places};
use graph_machine::Steps;
use node_arena::Key;
use rp_io::{Calls, MemSink};
use rp_text::NoMemory;
use script::{Act, Script};
use smallvec::SmallVec;
use std::alloc::Global;
use std::marker::Brand;
use std::process::Abort;
use std::sync::ledger::{Blank, Ledger};
use std::test::Fail;

// A node without links, of these numbers.
fn row(alloc: Global, kind: Kind, x: u8, state: u8) -> Node
    ensures { plain result ≡ node kind x state [] }
{
    Node {
        pos: Pos {
            x: i32::from(x),
            y: 0,
            z: 0,
        },
        kind,
        state,
        first: false,
        due: 0,
        priority: 0,
        links: Links {
            items: SmallVec::new(alloc),
        },
        also: Places {
            items: Vec::new(alloc),
        },
    }
}

fn back(from: u32) -> Link
    ensures { result ≡ record { from = from; group = Back; weight = 0 } }
{
    Link {
        from: Key::new(from),
        group: Group::Back,
        weight: 0,
    }
}

fn made(alloc: Global) -> Result<Graph, NoMemory>
    ensures { IfOk result (λ graph. graph.nodes ≡ twins) }
{
    let mut graph = Graph::new(alloc);
    let lamp = graph.add_node(row(alloc, Kind::Lamp, 0, 1))?;
    let other = graph.add_node(row(alloc, Kind::Lamp, 1, 1))?;
    let torch = graph.add_node(row(alloc, Kind::Torch, 2, 1))?;
    graph.add_node(row(alloc, Kind::Lever, 3, 0))?;
    graph.add_link(lamp, back(2))?;
    graph.add_link(other, back(2))?;
    graph.add_link(torch, back(3))?;
    Ok(graph)
}

fn asked(alloc: Global) -> Result<Script, NoMemory>
    ensures { IfOk result (λ script. script.acts ≡ acts) }
{
    let mut script = Script::new(alloc);
    script.push(Act::Use { pos: LEVER })?;
    script.push(Act::Ticks { count: 3 })?;
    Ok(script)
}

// One counter from start to end: by the calls, and by `play`.
fn plays_both<L: Ledger>(
    rt: &impl Abort,
    alloc: Global,
    graph: &Graph,
    script: &Script,
    blank: Blank,
) -> Result<(), Fail>
    requires graph { graph.now.nodes ≡ twins }
    requires script { script.now.acts ≡ acts }
    requires name { blank.name ≡ L.name }
    requires parts { blank.parts ≡ L.parts }
    requires some { 0 < L.parts }
{
    let mut steps: Steps<L> = Steps::new(blank);
    read_by_calls(alloc, graph, &mut steps)?;
    let places = [0, 2].map(|x| OutPlace {
        pos: Pos { x, y: 0, z: 0 },
        kind: OutKind::Lamp,
    });
    let none = Calls {
        items: Vec::new(alloc),
    };
    let mut out = MemSink::new(alloc, 4096, 4096, none)?;
    assert!(rt; read_by_play(alloc, graph, &places, script, &mut out, &mut steps).is_ok());
    let text =
        b"outputs 2\n0 0 0 lamp\n2 0 0 lamp\n0 start 1 1\n0 use 1 1\n1 tick 1 1\n2 tick 1 1\n3 tick 0 0\nnodes 4 links 3 events 4\nend\n";
    assert_eq!(rt; out.bytes.items.as_slice(), text.as_slice());
    Ok(())
}

#[test]
fn bounded_reads_of_twins(rt: HostRuntime) -> Result<(), Fail> {
    let alloc = rt.alloc();
    let graph = made(alloc)?;
    let script = asked(alloc)?;
    plays_both::<Brand>(&rt, alloc, &graph, &script, Blank::new(1))
}
