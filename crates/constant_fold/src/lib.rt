//! A pass that makes Constants of nodes that never change.
#![tactic(auto)]

ghost use Rattle.std.specs.Prelude.{◌≡◌, ◌≤◌, length, OnOk};
ghost use Rattle.graph.specs.Sound.{IsSound};
ghost use Rattle.graph.specs.Steps.{Folds};
ghost use Rattle.pass_frame.specs.Frame.{Reaches, Ran, IsDone};
ghost use Rattle.pass_frame.specs.Rounds.{Exhausts};
ghost use Rattle.constant_fold.specs.Tended.{AreListed, NoneFold};

use graph::{Graph, NodeKey};
use pass_frame::Pass;
use rp_text::NoMemory;
use std::alloc::Global;
use waits::Waits;

pub mod laws;
mod looks;
mod rests;
mod turns;
mod waits;

/// Makes a Constant of each torch, repeater and comparator that reads Constants alone, has no
/// pending tick, and is at its goal or locked.
///
/// It goes over the nodes once. Where nothing is folded that is all, and else it goes once more
/// over those before the last that was folded. Where nothing can be folded then it is done. Else
/// a node that reads another one waits until that is folded: so each link is looked at once more,
/// and where all sources of its target are Constants twice, and a list is taken for each key up
/// to the greatest.
#[derive(Drop)]
pub struct Fold;

impl Pass for Fold {
    ghost step = { Folds };

    ghost turn = { Exhausts Folds };

    fn run(&mut self, graph: &mut Graph) -> Result<bool, NoMemory>
        requires { IsSound graph.old.nodes }
        ensures ran { Ran Folds graph.old.nodes result graph.new.nodes }
        ensures done { OnOk result (IsDone Folds graph.new.nodes) }
        ensures turn { OnOk result (Exhausts Folds graph.old.nodes graph.new.nodes) }
    {
        let keys = graph.keys()?;
        let again = turns::fold_in_turn(graph, &keys);
        if again == 0 {
            return Ok(false);
        }
        fold_others(*keys.allocator(), graph, &keys, again)?;
        Ok(true)
    }

    ghost use Rattle.constant_fold.specs.FoldLaws.{fold_keeps_sound, fold_refines, fold_falls};

    ghost keeps_sound = { fold_keeps_sound };

    ghost refines = { fold_refines };

    ghost falls = { fold_falls };
}

// Folds what can be folded yet, where these are the keys of all nodes, and none but the first can.
fn fold_others(
    alloc: Global,
    graph: &mut Graph,
    keys: &[NodeKey],
    again: usize,
) -> Result<(), NoMemory>
    requires sound { IsSound graph.old.nodes }
    requires listed { AreListed graph.old.nodes keys.now }
    requires within { again ≤ length keys.now }
    requires rest { NoneFold graph.old.nodes keys.now again (length keys.now) }
    ensures reaches { Reaches Folds graph.old.nodes graph.new.nodes }
    ensures done { OnOk result (IsDone Folds graph.new.nodes) }
{
    if turns::is_folded(graph, keys, again) {
        Ok(())
    } else {
        fold_all(alloc, graph, keys)
    }
}

// The same, by what waits for what.
fn fold_all(alloc: Global, graph: &mut Graph, keys: &[NodeKey]) -> Result<(), NoMemory>
    requires sound { IsSound graph.old.nodes }
    requires listed { AreListed graph.old.nodes keys.now }
    ensures reaches { Reaches Folds graph.old.nodes graph.new.nodes }
    ensures done { OnOk result (IsDone Folds graph.new.nodes) }
{
    let mut waits = Waits::new(alloc, keys)?;
    while let Some(ready) = looks::next_ready(graph, &mut waits)? {
        graph.fold_to(ready.key, ready.value);
        waits.wake(ready.key)?;
    }
    Ok(())
}
