//! Whether two nodes that may have a twin read one node.

ghost use Rattle.std.specs.Prelude.{◌≡◌, ◌<◌, ℕ, false, Some, IfOk};
ghost use Rattle.node_arena.specs.Items.{keys_of};
ghost use Rattle.graph.specs.Graph.{node_at};
ghost use Rattle.graph.specs.Steps.{AreTwins};
ghost use Rattle.coalesce.specs.Sources.{source_at, IsMet};

use crate::pairs::{can_fold, only_link};
use graph::{Graph, NodeKey};
use rp_text::NoMemory;
use std::alloc::Global;

// Whether some node is read by two that may have a twin. Where none is, there are no twins.
pub fn some_are_shared(alloc: Global, graph: &Graph, keys: &[NodeKey]) -> Result<bool, NoMemory>
    requires { keys.now ≡ keys_of graph.now.nodes }
    ensures { IfOk result (λ shared. shared ≡ false → (a b : ℕ) → a < b → AreTwins graph.now.nodes a b → ⊥) }
{
    let mut met = Met::new(alloc, keys)?;
    for key in keys {
        if met.is_met_again(graph, *key) {
            return Ok(true);
        }
    }
    Ok(false)
}

// What was read by a node that may have a twin: a mark for each number up to the last key.
#[derive(Drop)]
struct Met {
    marks: Vec<bool>,
}

impl Met {
    fn new(alloc: Global, keys: &[NodeKey]) -> Result<Met, NoMemory> {
        let count = match keys.last() {
            Some(key) => key.number() as usize + 1,
            None => 0,
        };
        let marks = vec![in alloc; false; count]?;
        Ok(Met { marks })
    }

    // Marks what a node that may have a twin reads, and says whether it had a mark, or has no
    // place for one.
    fn is_met_again(&mut self, graph: &Graph, key: NodeKey) -> bool
        ensures keeps { (source : ℕ) → IsMet self.old.marks.items source → IsMet self.new.marks.items source }
        ensures new { result ≡ false → (source : ℕ) → source_at graph.now.nodes key ≡ Some source → IsMet self.old.marks.items source → ⊥ }
        ensures met { result ≡ false → (source : ℕ) → source_at graph.now.nodes key ≡ Some source → IsMet self.new.marks.items source }
    {
        match source_of(graph, key) {
            Some(source) => self.mark(source),
            None => false,
        }
    }

    fn mark(&mut self, source: NodeKey) -> bool
        ensures keeps { (other : ℕ) → IsMet self.old.marks.items other → IsMet self.new.marks.items other }
        ensures new { result ≡ false → IsMet self.old.marks.items source → ⊥ }
        ensures met { result ≡ false → IsMet self.new.marks.items source }
    {
        let source = source.number() as usize;
        if source >= self.marks.len() {
            return true;
        }
        let had = self.marks[source];
        self.marks[source] = true;
        had
    }
}

// What a node reads by its one link, if it may have a twin.
fn source_of(graph: &Graph, key: NodeKey) -> Option<NodeKey>
    ensures { result ≡ source_at graph.now.nodes key }
{
    let node = graph.node(key)?;
    if !can_fold(node.kind) {
        return None;
    }
    let link = only_link(node)?;
    Some(link.from)
}
