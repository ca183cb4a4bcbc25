//! Laws of the graph files that are written of builds. Each is a function with nothing to do whose
//! contract is the law.

ghost use Rattle.std.specs.Prelude.{◌≡◌, ◌<◌, ℕ, Bool, List, Ok};
ghost use Rattle.circuit.specs.declared.Act.{Act};
ghost use Rattle.circuit.specs.declared.Click.{Click};
ghost use Rattle.circuit.specs.declared.Pos.{Pos};
ghost use Rattle.circuit.specs.Shows.{Shows};
ghost use Rattle.circuit.specs.Taken.{EachActTaken};
ghost use Rattle.build.specs.Outputs.{outputs};
ghost use Rattle.build.specs.Plan.{Plan, IsWhole};
ghost use Rattle.script.specs.Acts.{Meaning};
ghost use Rattle.script.specs.Clickable.{takes_click, is_wire_at};
ghost use Rattle.script.specs.Scripts.{script_of};
ghost use Rattle.graph.specs.Graph.{Nodes, link_count};
ghost use Rattle.graph.specs.GraphCircuit.{graph_circuit};
ghost use Rattle.graph_machine.specs.Headed.{graph_outputs};
ghost use Rattle.power_rules.specs.World.{world_circuit, shows};
ghost use Rattle.compiler.specs.declared.Keep.{Keep};
ghost use Rattle.compiler.specs.Compiled.{Compiled};
ghost use Rattle.graph_file.specs.FitsFile.{FitsFile};
ghost use Rattle.graph_file.specs.GraphFile.{IsGraphFile};
ghost use Rattle.graph_file.specs.Json.{json_text, packed};
ghost use Rattle.graph_file.specs.Targets.{takes_click as node_takes_click, is_wire_at as is_wire_node_at};

/// A compiled graph of few links fits a file.
pub fn a_compiled_graph_fits_a_file()
    ensures { (b : Plan) → IsWhole b → (marks : List Pos) (keep : Keep) (g : Nodes) → Compiled b marks keep g →
        link_count g < 4294967295 → FitsFile g }
{}

/// Where the text that is written of a compiled graph is a file, it is one of that graph with its
/// nodes renumbered.
pub fn a_compiled_file_is_its_graph()
    ensures { (b : Plan) → IsWhole b → (marks : List Pos) (keep : Keep) (g : Nodes) → Compiled b marks keep g →
        (file : Nodes) → IsGraphFile (json_text g) file → file ≡ packed g }
{}

/// All that the graph of the file shows, the world shows.
pub fn a_compiled_file_shows_the_world()
    ensures { (b : Plan) → IsWhole b → (marks : List Pos) (keep : Keep) (g : Nodes) → Compiled b marks keep g →
        (file : Nodes) → IsGraphFile (json_text g) file →
        (acts : List Act) (views : List (List ℕ)) (events : ℕ) → Shows (graph_circuit file) acts views events → shows b marks acts views }
{}

/// The graph of the file takes the clicks that the build takes.
pub fn a_compiled_file_takes_clicks()
    ensures { (b : Plan) → IsWhole b → (marks : List Pos) (keep : Keep) (g : Nodes) → Compiled b marks keep g →
        (file : Nodes) → IsGraphFile (json_text g) file →
        (acts : List Act) → EachActTaken (world_circuit b marks) acts → EachActTaken (graph_circuit file) acts }
{}

/// The outputs of the graph of the file, by which its runs are headed, are those of the build, in
/// the same order.
pub fn a_compiled_file_has_the_outputs_of_its_build()
    ensures { (b : Plan) → IsWhole b → (marks : List Pos) (keep : Keep) (g : Nodes) → Compiled b marks keep g →
        (file : Nodes) → IsGraphFile (json_text g) file → graph_outputs file ≡ outputs b marks }
{}

/// A text that is a script of two things, such as a build and a graph, says the same of both.
pub fn a_script_has_one_meaning()
    ensures { (takes other_takes : Pos → Click → Bool) (wire other_wire : Pos → Bool) (text : List ℕ) (one other : Meaning) →
        script_of takes wire text ≡ Ok one → script_of other_takes other_wire text ≡ Ok other → one ≡ other }
{}

/// What the graph of the file shows by the script that the build was compiled with, the build shows
/// by it.
pub fn a_played_file_shows_its_build()
    ensures { (b : Plan) → IsWhole b → (text : List ℕ) (script : Meaning) → script_of (takes_click b) (is_wire_at b) text ≡ Ok script →
        (keep : Keep) (g : Nodes) → Compiled b script.marks keep g → (file : Nodes) → IsGraphFile (json_text g) file →
        (played : Meaning) → script_of (node_takes_click file) (is_wire_node_at file) text ≡ Ok played →
        (views : List (List ℕ)) (events : ℕ) → Shows (graph_circuit file) played.acts views events → shows b script.marks script.acts views }
{}
