//! Laws of graph files. Each is a function with nothing to do whose contract is the law.

ghost use Rattle.std.specs.Prelude.{◌≡◌, ◌≢◌, ◌<◌, ℕ, List, Some, None};
ghost use Rattle.circuit.specs.declared.Act.{Act};
ghost use Rattle.circuit.specs.Circuit.{Each};
ghost use Rattle.circuit.specs.Shows.{Refines};
ghost use Rattle.circuit.specs.Taken.{EachActTaken};
ghost use Rattle.graph.specs.Graph.{Nodes, node_count};
ghost use Rattle.graph.specs.GraphCircuit.{graph_circuit};
ghost use Rattle.graph.specs.Links.{IsInGroups};
ghost use Rattle.graph.specs.Sound.{IsSound, places_of};
ghost use Rattle.report.specs.declared.GraphRefusal.TheVariants.{Json as JsonRefusal};
ghost use Rattle.script.specs.Acts.{Meaning};
ghost use Rattle.script.specs.Fit.{IsFit};
ghost use Rattle.serde_json.specs.Data.{Data};
ghost use Rattle.graph_file.specs.FitsFile.{IsFilePlace, FitsFile};
ghost use Rattle.graph_file.specs.GraphFile.{cause_of, graph_of, IsGraphFile};
ghost use Rattle.graph_file.specs.Json.{json, json_text, packed};
ghost use Rattle.graph_file.specs.Targets.{takes_click, is_wire_at};

/// A script that fits a graph can be played: the circuit of the graph takes each of its clicks.
pub fn a_fit_script_is_taken()
    ensures { (g : Nodes) (script : Meaning) → IsFit (takes_click g) (is_wire_at g) script →
        EachActTaken (graph_circuit g) script.acts }
{}

/// All that a sound graph shows with its nodes renumbered, it shows, in some number of events.
pub fn packing_keeps_what_is_shown()
    ensures { (g : Nodes) → IsSound g → Refines (graph_circuit g) (graph_circuit (packed g)) }
{}

/// What is written of a graph that fits a file means the graph with its nodes renumbered.
pub fn what_is_written_is_read()
    ensures { (g : Nodes) → FitsFile g → (cause_of (json (packed g)) ≡ None) × (graph_of (json (packed g)) ≡ packed g) }
{}

/// The text that is written of a graph that fits a file is a file of the graph with its nodes
/// renumbered.
pub fn what_is_written_is_a_file()
    ensures { (g : Nodes) → FitsFile g → IsGraphFile (json_text g) (packed g) }
{}

/// Bytes are a file of one graph at most.
pub fn a_file_has_one_graph()
    ensures { (bytes : List ℕ) (a b : Nodes) → IsGraphFile bytes a → IsGraphFile bytes b → a ≡ b }
{}

/// Where the text that is written of a graph is a file, it is one of the graph with its nodes
/// renumbered. How many links the graph has need not be known, since a file has few.
pub fn a_text_is_no_other_file()
    ensures { (g : Nodes) → IsSound g → IsInGroups g → node_count g < 4294967295 → Each IsFilePlace (places_of g) →
        (file : Nodes) → IsGraphFile (json_text g) file → file ≡ packed g }
{}

/// No value is refused as no JSON.
pub fn a_value_is_no_text()
    ensures { (d : Data) → cause_of d ≢ Some JsonRefusal }
{}
