//! Folds in the order of nodes.

ghost use Rattle.std.specs.Prelude.{◌≡◌, ℕ, ◌+◌, ◌<◌, ◌≤◌, ◌^◌, nat_lt, true, false, None, length, if◌then◌else◌};
ghost use Rattle.graph.specs.Graph.{Lives, node_at};
ghost use Rattle.graph.specs.Sound.{IsSound};
ghost use Rattle.graph.specs.Steps.{Folds};
ghost use Rattle.pass_frame.specs.Frame.{IsDone};
ghost use Rattle.pass_frame.specs.Took.{Took};
ghost use Rattle.constant_fold.specs.Foldable.{fold_value_at};
ghost use Rattle.constant_fold.specs.Tended.{AreListed, NoneFold};

use crate::rests::fold_value_at;
use graph::{Graph, NodeKey};

// Folds each node that can be folded when its turn comes. It says how many of the first nodes are
// to be looked at again, which is 0 where it folded none. These are the keys of all nodes.
pub fn fold_in_turn(graph: &mut Graph, keys: &[NodeKey]) -> usize
    requires sound { IsSound graph.old.nodes }
    requires listed { AreListed graph.old.nodes keys.now }
    ensures took { Took Folds graph.old.nodes (nat_lt 0 result) graph.new.nodes }
    ensures within { result ≤ length keys.now }
    ensures rest { NoneFold graph.new.nodes keys.now result (length keys.now) }
    ensures listed { AreListed graph.new.nodes keys.now }
{
    let mut again = 0;
    for (index, key) in keys.iter().enumerate() {
        let folded = fold_at(graph, *key);
        again = looked_at_again(folded, index, again);
    }
    again
}

// How many nodes are to be looked at again after the turn of the node of this index.
fn looked_at_again(folded: bool, index: usize, again: usize) -> usize
    requires { index + 1 < 2 ^ 64 }
    ensures { result ≡ (if folded then index + 1 else again) }
{
    if folded { index + 1 } else { again }
}

// Folds the node if it can be folded now, and says whether it could.
fn fold_at(graph: &mut Graph, key: NodeKey) -> bool
    requires { IsSound graph.old.nodes }
    ensures took { Took Folds graph.old.nodes result graph.new.nodes }
    ensures none { result ≡ false → fold_value_at graph.new.nodes (node_at graph.new.nodes key) ≡ None }
    ensures lived { (k : ℕ) → Lives graph.new.nodes k → Lives graph.old.nodes k }
{
    match fold_value_at(graph, key) {
        Some(value) => {
            graph.fold_to(key, value);
            true
        }
        None => false,
    }
}

// Whether no node can be folded now, where none but the first nodes can. These are the keys of all.
pub fn is_folded(graph: &Graph, keys: &[NodeKey], again: usize) -> bool
    requires sound { IsSound graph.now.nodes }
    requires listed { AreListed graph.now.nodes keys.now }
    requires within { again ≤ length keys.now }
    requires rest { NoneFold graph.now.nodes keys.now again (length keys.now) }
    ensures { result ≡ true → IsDone Folds graph.now.nodes }
{
    let first = &keys[..again];
    for key in first {
        if fold_value_at(graph, *key).is_some() {
            return false;
        }
    }
    true
}
