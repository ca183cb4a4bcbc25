//! Laws of all graphs. Each is a function with nothing to do whose contract is the law.

ghost use Rattle.std.specs.Prelude.{◌≡◌, ℕ, List};
ghost use Rattle.node_arena.specs.Items.{keys_of};
ghost use Rattle.circuit.specs.declared.Act.{Act};
ghost use Rattle.circuit.specs.Bounds.{IsBounded};
ghost use Rattle.circuit.specs.Keys.{IsTest, IsListed};
ghost use Rattle.circuit.specs.Shows.{Shows};
ghost use Rattle.circuit.specs.Taken.{EachActTaken};
ghost use Rattle.graph.specs.Graph.{Nodes};
ghost use Rattle.graph.specs.GraphCircuit.{graph_circuit};
ghost use Rattle.graph.specs.Sound.{IsSound};
ghost use Rattle.graph.specs.Refines.{Refines};

/// Each graph, and so each sound one, has a run for every script whose clicks its nodes take.
pub fn every_script_runs()
    ensures { (g : Nodes) (acts : List Act) → EachActTaken (graph_circuit g) acts →
        (views : List (List ℕ)) × (events : ℕ) × Shows (graph_circuit g) acts views events }
{}

/// What all laws of circuits ask of a graph: its keys are listed, and are told apart.
pub fn keys_are_listed()
    ensures listed { (g : Nodes) → IsListed (graph_circuit g) (keys_of g) }
    ensures test { (g : Nodes) → IsTest (graph_circuit g).same }
{}

/// A sound graph stays within the bounds of values and powers.
pub fn sound_is_bounded()
    ensures { (g : Nodes) → IsSound g → IsBounded (graph_circuit g) }
{}

/// Each graph refines itself.
pub fn refines_itself()
    ensures { (g : Nodes) → Refines g g }
{}

/// A graph that refines a second one, which refines a third one, refines the third one.
pub fn refines_further()
    ensures { (first second third : Nodes) →
        Refines first second → Refines second third → Refines first third }
{}
