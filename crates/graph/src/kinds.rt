//! What a kind of node is, and what it gives and reads.

ghost use Rattle.std.specs.Prelude.{◌≡◌, ◌≤◌};
ghost use Rattle.graph.specs.GraphCircuit.{role_of};
ghost use Rattle.graph.specs.Readings.{back_of};
ghost use Rattle.graph.specs.Sound.{can_wait, top_of};
ghost use Rattle.graph.specs.Steps.{fixed, fixed_out};

use crate::{Graph, Kind, NodeKey};
use circuit::Component;

/// The component that a node is. A Constant is none.
pub fn role_of(kind: Kind) -> Option<Component>
    ensures { result ≡ role_of kind }
{
    match kind {
        Kind::Lever => Some(Component::Lever),
        Kind::Button { delay } => Some(Component::Button { delay }),
        Kind::Plate => Some(Component::Plate),
        Kind::Weighted => Some(Component::Weighted),
        Kind::Torch => Some(Component::Torch),
        Kind::Repeater { delay } => Some(Component::Repeater { delay }),
        Kind::Comparator { subtract, .. } => Some(Component::Comparator { subtract }),
        Kind::Lamp => Some(Component::Lamp),
        Kind::Trapdoor => Some(Component::Trapdoor),
        Kind::Note => Some(Component::Note),
        Kind::Wire => Some(Component::Wire),
        Kind::Constant => None,
    }
}

/// The greatest state of a node of this kind.
pub fn top_of(kind: Kind) -> u8
    ensures value { result ≡ top_of (role_of kind) }
    ensures small { result ≤ 15 }
{
    match kind {
        Kind::Weighted | Kind::Comparator { .. } | Kind::Constant => 15,
        Kind::Wire => 0,
        Kind::Lever
        | Kind::Button { .. }
        | Kind::Plate
        | Kind::Torch
        | Kind::Repeater { .. }
        | Kind::Lamp
        | Kind::Trapdoor
        | Kind::Note => 1,
    }
}

/// Whether a node of this kind may have a pending tick.
pub fn can_wait(kind: Kind) -> bool
    ensures { result ≡ can_wait kind }
{
    match kind {
        Kind::Torch
        | Kind::Repeater { .. }
        | Kind::Comparator { .. }
        | Kind::Lamp
        | Kind::Button { .. } => true,
        Kind::Lever
        | Kind::Plate
        | Kind::Weighted
        | Kind::Trapdoor
        | Kind::Note
        | Kind::Wire
        | Kind::Constant => false,
    }
}

/// The back reading, 0 to 15, of a node whose Back links bring so much.
pub fn back_of(kind: Kind, power: u8) -> u8
    ensures { result ≡ back_of kind power }
{
    match kind {
        Kind::Comparator {
            direct: Some(direct),
            ..
        } => direct,
        Kind::Comparator { far: Some(far), .. } if power < 15 => far,
        Kind::Comparator { .. }
        | Kind::Lever
        | Kind::Button { .. }
        | Kind::Plate
        | Kind::Weighted
        | Kind::Torch
        | Kind::Repeater { .. }
        | Kind::Lamp
        | Kind::Trapdoor
        | Kind::Note
        | Kind::Wire
        | Kind::Constant => power,
    }
}

/// What a node of this kind and state gives for good: the state of a Constant, and 0 for all else.
pub fn fixed_out(kind: Kind, state: u8) -> u8
    ensures { result ≡ fixed_out kind state }
{
    match kind {
        Kind::Constant => state,
        Kind::Lever
        | Kind::Button { .. }
        | Kind::Plate
        | Kind::Weighted
        | Kind::Torch
        | Kind::Repeater { .. }
        | Kind::Comparator { .. }
        | Kind::Lamp
        | Kind::Trapdoor
        | Kind::Note
        | Kind::Wire => 0,
    }
}

/// What the node under the key gives for good, 0 where none lives.
pub fn fixed_at(graph: &Graph, key: NodeKey) -> u8
    ensures { result ≡ fixed graph.now.nodes key }
{
    match graph.node(key) {
        Some(node) => fixed_out(node.kind, node.state),
        None => 0,
    }
}
