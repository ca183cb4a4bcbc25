//! Looks at nodes, until one can be folded.

ghost use Rattle.std.specs.Prelude.{◌≡◌, ◌+◌, ◌<◌, ◌^◌, ℕ, true, [], IfOk, OnOk, MatchOption, OnSome, Some};
ghost use Rattle.graph.specs.LinkAt.{link_at};
ghost use Rattle.graph.specs.Sound.{IsSound};
ghost use Rattle.constant_fold.specs.Foldable.{IsFoldable};
ghost use Rattle.constant_fold.specs.Tended.{IsOpen, HasPassed, EachConstant, OthersTended, AllTended};

use crate::rests::{is_constant_at, part_at, rest_value_at};
use crate::waits::{Wait, Waits};
use graph::{Graph, Link, NodeKey};
use rp_text::NoMemory;

// A node that can be folded, and what it gives for good.
#[derive(Drop)]
pub struct Ready {
    pub key: NodeKey,
    pub value: u8,
}

// A link, by its index, from a source that is no Constant.
#[derive(Drop)]
struct Open {
    source: NodeKey,
    index: usize,
}

// The next node that can be folded. All that was looked at before waits, or can't be folded.
pub fn next_ready(graph: &Graph, waits: &mut Waits) -> Result<Option<Ready>, NoMemory>
    requires sound { IsSound graph.now.nodes }
    requires tended { AllTended graph.now.nodes waits.old.work.items waits.old.lists.items }
    ensures { IfOk result (λ found. MatchOption found
        (AllTended graph.now.nodes [] waits.new.lists.items)
        (λ ready. IsFoldable graph.now.nodes ready.key ready.value
        × OthersTended graph.now.nodes ready.key waits.new.work.items waits.new.lists.items)) }
{
    while let Some(wait) = waits.work.pop() {
        let key = wait.node;
        if let Some(value) = look_at(graph, waits, wait)? {
            return Ok(Some(Ready { key, value }));
        }
    }
    Ok(None)
}

// What the node gives for good, if it can be folded. Else it waits, or never can.
fn look_at(graph: &Graph, waits: &mut Waits, wait: Wait) -> Result<Option<u8>, NoMemory>
    requires sound { IsSound graph.now.nodes }
    requires tended { OthersTended graph.now.nodes wait.node waits.old.work.items waits.old.lists.items }
    requires passed { HasPassed graph.now.nodes wait }
    ensures work { OnOk result (waits.new.work.items ≡ waits.old.work.items) }
    ensures found { IfOk result (λ found. MatchOption found
        (AllTended graph.now.nodes waits.new.work.items waits.new.lists.items)
        (λ value. IsFoldable graph.now.nodes wait.node value
        × OthersTended graph.now.nodes wait.node waits.new.work.items waits.new.lists.items)) }
{
    let node = wait.node;
    let Some(component) = part_at(graph, node) else {
        return Ok(None);
    };
    if let Some(found) = next_open_link(graph, node, wait.index) {
        let index = found.index;
        waits.add(found.source, Wait { node, index })?;
        return Ok(None);
    }
    Ok(rest_value_at(graph, node, component))
}

// The first link into the node, from this index on, whose source is no Constant.
fn next_open_link(graph: &Graph, key: NodeKey, from: usize) -> Option<Open>
    requires { HasPassed graph.now.nodes (record { node = key; index = from }) }
    ensures { MatchOption result (EachConstant graph.now.nodes key)
        (λ found. IsOpen graph.now.nodes key found.source found.index) }
{
    let mut index = from;
    while let Some(link) = link_at(graph, key, index) {
        if !is_constant_at(graph, link.from) {
            return Some(Open {
                source: link.from,
                index,
            });
        }
        index += 1;
    }
    None
}

// The link of this index into the node.
fn link_at(graph: &Graph, key: NodeKey, index: usize) -> Option<Link>
    ensures value { result ≡ link_at graph.now.nodes key index }

    // No list is as long as a number can be.
    ensures small { OnSome result (index + 1 < 2 ^ 64) }
{
    let node = graph.node(key)?;
    node.links.items.as_slice().get(index).copied()
}
