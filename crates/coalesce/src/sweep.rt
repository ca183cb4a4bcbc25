//! Takes twins until there are none.

ghost use Rattle.std.specs.Prelude.{◌≡◌, ◌<◌, false, true, ℕ, Some, OnOk, IfOk};
ghost use Rattle.circuit.specs.Circuit.{Among};
ghost use Rattle.node_arena.specs.Items.{keys_of};
ghost use Rattle.graph.specs.Graph.{Nodes};
ghost use Rattle.graph.specs.Steps.{Coalesces};
ghost use Rattle.pass_frame.specs.Frame.{Ran, IsDone};
ghost use Rattle.pass_frame.specs.Rounds.{Rounds};
ghost use Rattle.coalesce.specs.declared.looks.Look.{Look};
ghost use Rattle.coalesce.specs.FanOuts.{targets_of};
ghost use Rattle.coalesce.specs.Looks.{look_at};
ghost use Rattle.coalesce.specs.Sweeps.{Sweep, SweepsOnce};
ghost use Rattle.coalesce.specs.Tried.{TriedPair, TriedTwins, IsKnown};
ghost use Rattle.coalesce.specs.Waiting.{Waits, AreFew, TwinsWait, OthersWait};

use crate::fan_outs::FanOuts;
use crate::looks::{Groups, look_of};
use crate::pairs::are_twins;
use crate::sources::some_are_shared;
use crate::waiting::Waiting;
use graph::{Graph, NodeKey};
use node_arena::Key;
use rp_text::NoMemory;
use std::alloc::Global;

// Takes twins until there are none, and says whether it took any.
//
// It goes over the nodes by rising number, round after round, but only over those that may have a
// twin above them: at first all, and then those that read a node that took a twin. Where no two of
// them read one node, there are none.
pub fn take_all(graph: &mut Graph) -> Result<bool, NoMemory>
    ensures ran { Ran Coalesces graph.old.nodes result graph.new.nodes }
    ensures done { OnOk result (IsDone Coalesces graph.new.nodes) }
    ensures turn { OnOk result (Rounds SweepsOnce graph.old.nodes graph.new.nodes) }
{
    let keys = graph.keys()?;
    let alloc = *keys.allocator();
    if !some_are_shared(alloc, graph, &keys)? {
        return Ok(false);
    }
    let mut known = Known::of(alloc, graph, &keys)?;
    let mut waiting = Waiting::new(alloc);
    waiting.add_all(graph, &keys)?;
    let mut place = 0;
    let mut took = false;
    while let Some(number) = waiting.next(place) {
        took |= take_twins(graph, &mut known, &mut waiting, Key::new(number))?;
        place = number;
    }
    Ok(took)
}

// What is known of the links and looks of the nodes.
#[derive(Drop)]
struct Known {
    fans: FanOuts,
    groups: Groups,
}

impl Known {
    // What is to be known of a graph, whose keys are given.
    fn of(alloc: Global, graph: &Graph, keys: &[NodeKey]) -> Result<Known, NoMemory>
        requires { keys.now ≡ keys_of graph.now.nodes }
        ensures { IfOk result (λ known. IsKnown graph.now.nodes known.fans.lists.items known.groups.lists) }
    {
        let fans = FanOuts::of(alloc, graph, keys)?;
        let mut groups = Groups::new(alloc);
        groups.add_all(graph, keys)?;
        Ok(Known { fans, groups })
    }
}

// Takes the twins of the node among those above it, which have its look.
fn take_twins(
    graph: &mut Graph,
    known: &mut Known,
    waiting: &mut Waiting,
    keep: NodeKey,
) -> Result<bool, NoMemory>
    requires known { IsKnown graph.old.nodes known.old.fans.lists.items known.old.groups.lists }
    requires wait { OthersWait graph.old.nodes waiting.old.numbers keep }
    requires few { AreFew graph.old.nodes waiting.old.numbers }
    ensures tried { TriedTwins graph.old.nodes result graph.new.nodes }
    ensures known { OnOk result (IsKnown graph.new.nodes known.new.fans.lists.items known.new.groups.lists) }
    ensures wait { OnOk result (TwinsWait graph.new.nodes waiting.new.numbers) }
    ensures few { OnOk result (AreFew graph.new.nodes waiting.new.numbers) }
    ensures rest { IfOk result (λ took. took ≡ false → waiting.new.numbers ≡ waiting.old.numbers) }
    ensures sweep { OnOk result ((end : Nodes) → Sweep keep 0 graph.new.nodes end → Sweep keep 0 graph.old.nodes end) }
{
    let Some(look) = look_of(graph, keep) else {
        return Ok(false);
    };
    let later = known.groups.above(look, keep)?;
    let mut took = false;
    for gone in &later {
        took |= take_pair(graph, known, keep, *gone)?;
    }
    let readers = known.fans.targets(keep);
    add_readers(waiting, graph, readers, took)?;
    Ok(took)
}

// Takes a later node where it is a twin.
fn take_pair(
    graph: &mut Graph,
    known: &mut Known,
    keep: NodeKey,
    gone: NodeKey,
) -> Result<bool, NoMemory>
    requires earlier { keep < gone }
    requires known { IsKnown graph.old.nodes known.old.fans.lists.items known.old.groups.lists }
    ensures tried { TriedPair keep gone graph.old.nodes result graph.new.nodes }
    ensures known { OnOk result (IsKnown graph.new.nodes known.new.fans.lists.items known.new.groups.lists) }
{
    if !are_twins(graph, keep, gone, known.fans.targets(gone)) {
        return Ok(false);
    }
    graph.merge_among(keep, gone, known.fans.targets(gone))?;
    known.groups.add_all(graph, known.fans.targets(gone))?;
    known.fans.join(keep, gone)?;
    Ok(true)
}

// Lets the readers of a node that took a twin wait.
fn add_readers(
    waiting: &mut Waiting,
    graph: &Graph,
    readers: &[NodeKey],
    took: bool,
) -> Result<(), NoMemory>
    requires { AreFew graph.now.nodes waiting.old.numbers }
    ensures few { OnOk result (AreFew graph.now.nodes waiting.new.numbers) }
    ensures keeps { OnOk result ((key : ℕ) → Waits waiting.old.numbers key → Waits waiting.new.numbers key) }
    ensures all { OnOk result (took ≡ true → (key : ℕ) (look : Look) → Among readers.now key → look_at graph.now.nodes key ≡ Some look → Waits waiting.new.numbers key) }
    ensures rest { OnOk result (took ≡ false → waiting.new.numbers ≡ waiting.old.numbers) }
{
    if took {
        waiting.add_all(graph, readers)?;
    }
    Ok(())
}
