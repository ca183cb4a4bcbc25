//! Laws of Clamp and Dedup. Each is a function with nothing to do whose contract is the law.
//!
//! Those with the order: a run of the graph after a step is a run of the graph before: with the same firing lists, and
//! so as many events, the same views, and the same state at its end. As each prefix of a script
//! is a script, the values and pending ticks of all nodes are equal at the start and after each
//! click and tick, and, by the clause `events`, after each firing in a tick.

ghost use Rattle.std.specs.Prelude.{◌≡◌};
ghost use Rattle.circuit.specs.Shows.{SameRuns};
ghost use Rattle.circuit.specs.Events.{SameEvents};
ghost use Rattle.graph.specs.Graph.{Nodes};
ghost use Rattle.graph.specs.GraphCircuit.{graph_circuit};
ghost use Rattle.graph.specs.Sound.{IsSound};
ghost use Rattle.graph.specs.Steps.{Clamps, Dedups};
ghost use Rattle.pass_frame.specs.Rounds.{Exhausts};

/// Clamp keeps all runs.
pub fn clamp_keeps_the_order()
    ensures runs { (old new : Nodes) → IsSound old → Clamps old new →
        SameRuns (graph_circuit old) (graph_circuit new) }
    ensures events { (old new : Nodes) → IsSound old → Clamps old new →
        SameEvents (graph_circuit old) (graph_circuit new) }
{}

/// Dedup keeps all runs, of whatever graph.
pub fn dedup_keeps_the_order()
    ensures runs { (old new : Nodes) → Dedups old new →
        SameRuns (graph_circuit old) (graph_circuit new) }
    ensures events { (old new : Nodes) → Dedups old new →
        SameEvents (graph_circuit old) (graph_circuit new) }
{}

/// Clamp has one end: whichever link is dropped first, the same are left where none is heavy.
pub fn clamp_has_one_end()
    ensures { (old one other : Nodes) → Exhausts Clamps old one → Exhausts Clamps old other → one ≡ other }
{}

/// Dedup has one end: whichever link is dropped first, of the links with the same ends and group
/// the first of the lightest is left.
pub fn dedup_has_one_end()
    ensures { (old one other : Nodes) → Exhausts Dedups old one → Exhausts Dedups old other → one ≡ other }
{}
