//! Laws of builds to which a run is handed back. Each is a function with nothing to do whose
//! contract is the law.

ghost use Rattle.std.specs.Prelude.{◌≡◌, ◌++◌, ℕ, List, map, drop};
ghost use Rattle.circuit.specs.declared.Act.{Act};
ghost use Rattle.circuit.specs.declared.Pos.{Pos};
ghost use Rattle.circuit.specs.Circuit.{State};
ghost use Rattle.circuit.specs.Shows.{Plays};
ghost use Rattle.build.specs.Plan.{Plan, IsWhole};
ghost use Rattle.power_rules.specs.StandsFor.{StandsFor};
ghost use Rattle.power_rules.specs.World.{world_circuit, shows};
ghost use Rattle.graph.specs.Graph.{Nodes};
ghost use Rattle.graph.specs.GraphCircuit.{graph_circuit};
ghost use Rattle.compiler.specs.declared.Keep.{Keep};
ghost use Rattle.compiler.specs.declared.Keep.TheVariants.{All};
ghost use Rattle.compiler.specs.Compiled.{Compiled};
ghost use Rattle.compiler.specs.PlaceOrder.{expand};
ghost use Rattle.compiler.specs.SavedGraph.{IsSaved};
ghost use Rattle.handover.specs.GivenBack.{given_back};
ghost use Rattle.handover.specs.Ended.{HasItsBlocks, IsPlayed};

/// A compiled graph has its blocks in the build that it was compiled from, whatever is kept.
pub fn a_compiled_graph_has_its_blocks()
    ensures { (b : Plan) (marks : List Pos) (keep : Keep) (g : Nodes) → Compiled b marks keep g → HasItsBlocks b g }
{}

/// What is given back of a graph that keeps all its nodes is saved: it has all that the nodes hold,
/// with due times less the time.
pub fn what_is_given_back_is_saved()
    ensures { (b : Plan) → IsWhole b → (marks : List Pos) (g : Nodes) → Compiled b marks All g →
        (s : State ℕ) → IsPlayed g s → IsSaved b g s (given_back b g s) }
{}

/// Whatever is kept, what is given back is whole, so it has files that mean it, and it has the data
/// version of the build.
pub fn what_is_given_back_is_whole()
    ensures whole { (b : Plan) → IsWhole b → (marks : List Pos) (keep : Keep) (g : Nodes) → Compiled b marks keep g →
        (s : State ℕ) → IsPlayed g s → IsWhole (given_back b g s) }
    ensures version { (b : Plan) (g : Nodes) (s : State ℕ) → (given_back b g s).data_version ≡ b.data_version }
{}

/// So it stands for the end of a run of the world, which has the same views and plays at the places
/// of the nodes.
pub fn what_is_given_back_stands_for_the_world()
    ensures { (b : Plan) → IsWhole b → (marks : List Pos) (g : Nodes) → Compiled b marks All g →
        (acts : List Act) (order : List (List ℕ)) (views : List (List ℕ)) (last : State ℕ) → Plays (graph_circuit g) acts order views last →
        (end : State Pos) × Plays (world_circuit b marks) acts (map (expand g) order) views end × StandsFor b end (given_back b g last) }
{}

/// So a run may be cut in two: what the build shows that is given back goes on with what was shown.
pub fn what_is_given_back_goes_on()
    ensures { (b : Plan) → IsWhole b → (marks : List Pos) (g : Nodes) → Compiled b marks All g →
        (acts : List Act) (order : List (List ℕ)) (views : List (List ℕ)) (last : State ℕ) → Plays (graph_circuit g) acts order views last →
        (more_acts : List Act) (more_views : List (List ℕ)) → shows (given_back b g last) marks more_acts more_views →
        shows b marks (acts ++ more_acts) (views ++ drop 1 more_views) }
{}
