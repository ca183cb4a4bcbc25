//! The law of the pass with the order, as a function with nothing to do whose contract is it.

ghost use Rattle.circuit.specs.Shows.{RefinesBy};
ghost use Rattle.circuit.specs.Merged.{TwinStates};
ghost use Rattle.graph.specs.Graph.{Nodes};
ghost use Rattle.graph.specs.GraphCircuit.{graph_circuit};
ghost use Rattle.graph.specs.Sound.{IsSound};
ghost use Rattle.graph.specs.Steps.{Coalesces};
ghost use Rattle.coalesce.specs.Order.{in_pairs};

/// For each run of the graph after a step the graph before it has a run with the same views.
///
/// Its firing lists are those of the run with the dropped node put right after the kept one. In
/// the end, and so, since each prefix of a script is a script, at the start and after each click
/// and tick, both have equal values, pending ticks and times at all nodes but the dropped one,
/// which has the value and the pending tick of the kept one.
pub fn coalescing_keeps_the_order()
    ensures { (old new : Nodes) → IsSound old → (step : Coalesces old new) →
        RefinesBy (graph_circuit old) (graph_circuit new) (in_pairs step.keep step.gone) (TwinStates step.keep step.gone) }
{}
