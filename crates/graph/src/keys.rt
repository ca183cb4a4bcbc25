//! How great the keys of a graph are.

ghost use Rattle.std.specs.Prelude.{◌≡◌, ◌<◌, ◌≤◌, ◌^◌, max, ℕ, All, None, EachIndex, IfOk, slice_index};
ghost use Rattle.graph.specs.Graph.{node_at};

use crate::{Graph, NodeKey};
use rp_text::NoMemory;

/// The greatest number of these keys, 0 where there is none.
pub fn greatest_number(keys: &[NodeKey]) -> u32
    ensures { EachIndex keys.now (λ index. slice_index keys.now index ≤ result) }
{
    keys.iter().map(|key| key.number()).max().unwrap_or(0)
}

fn larger(one: usize, other: usize) -> usize
    ensures { result ≡ max one other }
{
    if one < other { other } else { one }
}

// One more than the last key, or 0 where there is none.
fn count_of(keys: &[NodeKey]) -> usize
    ensures above { All (λ key. key < result) keys.now }
    ensures few { result ≤ 2 ^ 32 }
{
    let mut count = 0;
    for key in keys {
        count = larger(count, key.number() as usize + 1);
    }
    count
}

/// So many keys are enough for the nodes of the graph: one more than the number of the last.
pub fn count_keys(graph: &Graph) -> Result<usize, NoMemory>
    ensures past { IfOk result (λ count. (key : ℕ) → count ≤ key → node_at graph.now.nodes key ≡ None) }
    ensures few { IfOk result (λ count. count ≤ 2 ^ 32) }
{
    let keys = graph.keys()?;
    Ok(count_of(&keys))
}
