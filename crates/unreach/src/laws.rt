//! Laws of Unreach. Each is a function with nothing to do whose contract is the law.
//!
//! The one with the order: a run of the graph after a step is a run of the graph before: with the same firing lists, and
//! so as many events, the same views, and the same state at its end. As each prefix of a script
//! is a script, the values and pending ticks of all nodes are equal at the start and after each
//! click and tick, and, by the clause `events`, after each firing in a tick.

ghost use Rattle.std.specs.Prelude.{◌≡◌, ℕ, ◌≤◌, List};
ghost use Rattle.circuit.specs.declared.Act.{Act};
ghost use Rattle.circuit.specs.Circuit.{State, outs};
ghost use Rattle.circuit.specs.Shows.{SameRuns, Plays};
ghost use Rattle.circuit.specs.Events.{SameEvents};
ghost use Rattle.graph.specs.Graph.{Nodes, node_at};
ghost use Rattle.graph.specs.GraphCircuit.{graph_circuit};
ghost use Rattle.graph.specs.Sound.{IsSound};
ghost use Rattle.graph.specs.Steps.{Unreaches, bound_at};
ghost use Rattle.pass_frame.specs.Rounds.{Exhausts};

/// Unreach keeps all runs, since in none a comparator's state passes its bound.
pub fn unreach_keeps_the_order()
    ensures runs { (old new : Nodes) → IsSound old → Unreaches old new →
        SameRuns (graph_circuit old) (graph_circuit new) }
    ensures events { (old new : Nodes) → IsSound old → Unreaches old new →
        SameEvents (graph_circuit old) (graph_circuit new) }
{}

/// Where a run of a sound graph has come, no node gives more than its bound.
pub fn no_node_passes_its_bound()
    ensures { (g : Nodes) (acts : List Act) (order : List (List ℕ)) (views : List (List ℕ)) (last : State ℕ) →
        IsSound g → Plays (graph_circuit g) acts order views last →
        (key : ℕ) → outs (graph_circuit g) last key ≤ bound_at g (node_at g key) }
{}

/// Unreach has one end: whichever link is dropped first, the same are left where each may bring
/// something.
pub fn unreach_has_one_end()
    ensures { (old one other : Nodes) → Exhausts Unreaches old one → Exhausts Unreaches old other → one ≡ other }
{}
