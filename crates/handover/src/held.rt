//! What the nodes of a graph hold at the end of a run, by the cells of a build.

ghost use Rattle.std.specs.Prelude.{◌≡◌, Some, IfOk, length};
ghost use Rattle.build.specs.Plan.{volume};
ghost use Rattle.graph.specs.Graph.{node_at};
ghost use Rattle.graph.specs.GraphCircuit.{graph_circuit};
ghost use Rattle.graph_machine.specs.Playing.{state_in};
ghost use Rattle.compiler.specs.PlaceOrder.{HasComponent};
ghost use Rattle.handover.specs.GivenBack.{keeps, held_under};
ghost use Rattle.handover.specs.HeldByCell.{Notes, IsTimely, AreTimely, AreHeld};

use crate::notes::{has_state, note_node};
use build::Build;
use graph::{Graph, NodeKey};
use graph_machine::{Machine, Wait};
use rp_text::NoMemory;
use std::alloc::Global;

/// What a node holds: its value, and its pending tick.
#[derive(Clone, Copy, PartialEq, Eq, Debug)]
pub struct Held {
    pub value: u8,
    pub wait: Option<Wait>,
}

/// What is held in each cell of the box by the node that gives its state to the cell.
pub fn held_by_cell(
    alloc: Global,
    build: &Build,
    graph: &Graph,
    machine: &Machine,
) -> Result<Vec<Option<Held>>, NoMemory>
    requires { graph_circuit machine.now.nodes ≡ graph_circuit graph.now.nodes }
    ensures held { IfOk result (λ held. AreHeld build.now graph.now.nodes (state_in machine.now) held.items) }
    ensures timely { IfOk result (λ held. AreTimely held.items) }
{
    let mut held = vec![in alloc; None; build.cells()]?;
    let mut keys = graph.keys()?;
    while let Some(key) = keys.pop() {
        note_key(build, graph, machine, key, &mut held);
    }
    Ok(held)
}

// Notes what is held under the key at the places to which its node gives its state.
fn note_key(
    build: &Build,
    graph: &Graph,
    machine: &Machine,
    key: NodeKey,
    held: &mut [Option<Held>],
)
    requires started { graph_circuit machine.now.nodes ≡ graph_circuit graph.now.nodes }
    requires whole { length held.old ≡ volume build.now }
    requires timely { AreTimely held.old }
    ensures notes { Notes build.now (λ pos. keeps pos (node_at graph.now.nodes key)) (held_under (state_in machine.now) key) held.old held.new }
    ensures timely { AreTimely held.new }
{
    let Some(node) = graph.node(key) else {
        return;
    };
    if has_state(node.kind) {
        note_node(build, node, held_by(machine, key), held);
    }
}

// What the node under the key holds, which is a component.
fn held_by(machine: &Machine, key: NodeKey) -> Held
    requires { HasComponent (graph_circuit machine.now.nodes) key }
    ensures value { result ≡ held_under (state_in machine.now) key }
    ensures timely { IsTimely (Some result) }
{
    Held {
        value: machine.node_state(key).unwrap(),
        wait: machine.node_wait(key),
    }
}
