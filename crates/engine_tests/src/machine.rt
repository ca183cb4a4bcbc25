//! Two lamps on a torch.

ghost use Rattle.std.specs.Prelude.{◌≡◌, ◌<◌};
ghost use Rattle.graph.specs.Sound.{IsSound};

use circuit::{Click, Pos};
use graph::{Graph, Kind, NodeKey};
use graph_machine::{Fired, Machine, Steps, Wait};
use hand_graph::{back, sound_graph};
use rp_text::NoMemory;
use std::alloc::Global;
use std::marker::Brand;
use std::sync::ledger::{Blank, Ledger};
use std::test::Fail;

fn at(x: i32) -> Pos {
    Pos { x, y: 0, z: 0 }
}

/// Whether the first tick after a click of the lever of twins does what it has to: the torch
/// fires and goes off, and each lamp waits.
fn goes_off<L: Ledger>(alloc: Global, twins: &Graph, blank: Blank) -> Result<bool, NoMemory>
    requires sound { IsSound twins.now.nodes }
    requires name { blank.name ≡ L.name }
    requires parts { blank.parts ≡ L.parts }
    requires some { 0 < L.parts }
{
    let mut steps: Steps<L> = Steps::new(blank);
    let mut machine = Machine::start(alloc, twins)?;
    let mut fired = Fired::new(alloc, twins.node_count() as usize)?;
    let taken = machine.click(at(3), Click::Use, &mut steps).is_ok();
    machine.tick_noting(&mut fired, &mut steps);
    let lamp_waits = Some(Wait {
        left: 2,
        priority: 3,
    });
    Ok(
        taken
            && fired.keys() == [NodeKey::new(2)].as_slice()
            && machine.node_state(NodeKey::new(0)) == Some(1)
            && machine.node_state(NodeKey::new(2)) == Some(0)
            && machine.node_state(NodeKey::new(4)) == None
            && machine.node_wait(NodeKey::new(0)) == lamp_waits
            && machine.node_wait(NodeKey::new(1)) == lamp_waits
            && machine.node_wait(NodeKey::new(2)) == None,
    )
}

#[test]
fn first_tick_of_twins(rt: HostRuntime) -> Result<(), Fail> {
    let twins = sound_graph(
        rt.alloc(),
        &[
            (at(0), Kind::Lamp, 1, 0),
            (at(1), Kind::Lamp, 1, 0),
            (at(2), Kind::Torch, 1, 0),
            (at(3), Kind::Lever, 0, 0),
        ],
        &[(0, back(2, 0)), (1, back(2, 0)), (2, back(3, 0))],
    )?;
    let went_off = match twins {
        Some(graph) => goes_off::<Brand>(rt.alloc(), &graph, Blank::new(1))?,
        None => false,
    };
    assert!(rt; went_off);
    Ok(())
}
