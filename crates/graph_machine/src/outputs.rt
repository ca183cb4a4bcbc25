//! The states of the nodes of a started machine.

ghost use Rattle.std.specs.Prelude.{◌≡◌};
ghost use Rattle.graph.specs.Graph.{node_at};
ghost use Rattle.graph_machine.specs.Shown.{node_state, part_state, state_by};

use crate::net::{Net, Part};
use circuit::{Cell, Component};
use graph::role_of;

fn state_by(role: Option<Component>, state: u8, cell: Cell) -> u8
    ensures { result ≡ state_by role state cell }
{
    match role {
        Some(_) => cell.value,
        None => state,
    }
}

/// The state of a node.
fn part_state(part: Option<Part>, cell: Cell) -> Option<u8>
    ensures { result ≡ part_state part cell }
{
    let part = part?;
    Some(state_by(role_of(part.kind), part.state, cell))
}

/// The state of the node under the key.
pub fn node_state(net: &Net, key: usize, cell: Cell) -> Option<u8>
    ensures { result ≡ node_state (node_at net.now.nodes key) cell }
{
    part_state(net.part(key), cell)
}
