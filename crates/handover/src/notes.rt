//! Notes the states of nodes in the cells of their places.

ghost use Rattle.std.specs.Prelude.{◌≡◌, true, Some, length};
ghost use Rattle.build.specs.Place.{same_place};
ghost use Rattle.build.specs.Plan.{volume};
ghost use Rattle.graph.specs.Stored.{plain};
ghost use Rattle.handover.specs.GivenBack.{has_state, keeps};
ghost use Rattle.handover.specs.HeldByCell.{Notes, IsTimely, AreTimely};

use crate::held::Held;
use build::{Build, Pos};
use graph::{Kind, Node};

/// Whether a node of this kind has a state to give back. A Constant has none, for its node has
/// folded, nor has a wire, whose power is not stored.
pub fn has_state(kind: Kind) -> bool
    ensures { result ≡ has_state kind }
{
    match kind {
        Kind::Lever
        | Kind::Button { .. }
        | Kind::Plate
        | Kind::Weighted
        | Kind::Torch
        | Kind::Repeater { .. }
        | Kind::Comparator { .. }
        | Kind::Lamp
        | Kind::Trapdoor
        | Kind::Note => true,
        Kind::Wire | Kind::Constant => false,
    }
}

/// Notes what the node holds at each of its places.
pub fn note_node(build: &Build, node: &Node, state: Held, held: &mut [Option<Held>])
    requires state { has_state node.now.kind ≡ true }
    requires timely { IsTimely (Some state) }
    requires whole { length held.old ≡ volume build.now }
    requires all_timely { AreTimely held.old }
    ensures notes { Notes build.now (λ pos. keeps pos (Some (plain node.now))) state held.old held.new }
    ensures timely { AreTimely held.new }
{
    note_place(build, node.pos, state, held);
    for pos in &node.also.items {
        note_place(build, *pos, state, held);
    }
}

// Notes what is held at a place, if it is in the box.
fn note_place(build: &Build, pos: Pos, state: Held, held: &mut [Option<Held>])
    requires timely { IsTimely (Some state) }
    requires whole { length held.old ≡ volume build.now }
    requires all_timely { AreTimely held.old }
    ensures notes { Notes build.now (λ other. same_place pos other) state held.old held.new }
    ensures timely { AreTimely held.new }
{
    if let Some(cell) = build.cell(pos) {
        held[cell] = Some(state);
    }
}
