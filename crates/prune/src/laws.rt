//! Laws of prune. Each is a function with nothing to do whose contract is the law.

ghost use Rattle.std.specs.Prelude.{◌≡◌};
ghost use Rattle.circuit.specs.PutLast.{RefinesWith};
ghost use Rattle.graph.specs.Graph.{Nodes};
ghost use Rattle.graph.specs.GraphCircuit.{graph_circuit};
ghost use Rattle.graph.specs.Sound.{IsSound};
ghost use Rattle.graph.specs.Steps.{Prunes};
ghost use Rattle.pass_frame.specs.Frame.{Reaches};
ghost use Rattle.pass_frame.specs.Rounds.{Exhausts};
ghost use Rattle.prune.specs.Order.{dropped_keys, AgreeOn};

/// What a run of prune leaves of a sound graph plays as the whole graph does: each of its runs
/// is one of the whole graph with the same views, in whose firing lists the dropped nodes that
/// are due stand last within their priority, by rising number.
///
/// The kept nodes end with equal values and pending ticks. Since each part of a script is a
/// script, so it is at the start and after each click and tick too.
pub fn dropped_nodes_fire_last()
    ensures { (old new : Nodes) → IsSound old → Reaches Prunes old new →
        RefinesWith (graph_circuit old) (graph_circuit new) (dropped_keys old new) (AgreeOn new) }
{}

/// Pruning has one end: however it is taken until nothing is left to prune, one graph is left.
pub fn prune_has_one_end()
    ensures { (old one other : Nodes) → IsSound old → Exhausts Prunes old one → Exhausts Prunes old other → one ≡ other }
{}
