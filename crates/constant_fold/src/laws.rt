//! Laws of Fold. Each is a function with nothing to do whose contract is the law.
//!
//! The one with the order: from a run of the graph after a step the graph before has a run with the same firing lists,
//! and so as many events, and the same views. At its end all nodes but the folded one have the
//! same value and pending tick in both. The folded one has in the old graph the value that it has
//! before the start, and in neither graph a pending tick. As each prefix of a script is a script,
//! this holds at the start and after each click and tick, and, by the clause `events`, after each
//! firing in a tick.

ghost use Rattle.std.specs.Prelude.{◌≡◌};
ghost use Rattle.circuit.specs.Shows.{RefinesBy};
ghost use Rattle.circuit.specs.Rest.{AgreeBut};
ghost use Rattle.circuit.specs.Events.{EventsAgreeBut};
ghost use Rattle.graph.specs.Graph.{Nodes};
ghost use Rattle.graph.specs.GraphCircuit.{graph_circuit};
ghost use Rattle.graph.specs.Steps.{Folds};
ghost use Rattle.pass_frame.specs.Rounds.{Exhausts};

/// Fold keeps all runs, of whatever graph.
pub fn fold_keeps_the_order()
    ensures runs { (old new : Nodes) → (step : Folds old new) →
        RefinesBy (graph_circuit old) (graph_circuit new) (λ order. order) (AgreeBut step.key step.node.state) }
    ensures events { (old new : Nodes) → (step : Folds old new) →
        EventsAgreeBut step.key step.node.state (graph_circuit old) (graph_circuit new) }
{}

/// Fold has one end: whatever is folded first, in the end the same nodes are Constants, of the
/// same states.
pub fn fold_has_one_end()
    ensures { (old one other : Nodes) → Exhausts Folds old one → Exhausts Folds old other → one ≡ other }
{}
