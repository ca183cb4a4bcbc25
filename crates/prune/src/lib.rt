//! The pass of the compiler that drops what nobody sees or clicks.
#![tactic(auto)]

ghost use Rattle.std.specs.Prelude.{◌≡◌, OnOk, IfOk, filter};
ghost use Rattle.graph.specs.Sound.{IsSound};
ghost use Rattle.graph.specs.Steps.{Prunes};
ghost use Rattle.pass_frame.specs.Frame.{Ran, IsDone};
ghost use Rattle.pass_frame.specs.Rounds.{Exhausts};
ghost use Rattle.prune.specs.Unseen.{AreUnseen};
ghost use Rattle.prune.specs.Found.{is_unmarked};

use graph::{Graph, NodeKey};
use pass_frame::Pass;
use rp_text::NoMemory;

pub mod laws;
mod search;
#[cfg(test)]
mod tests;

/// Drops each node that reaches no node that is shown or clicked, and the links into it. So a
/// clock that drives no lamp goes.
///
/// A step drops one node and all that it reaches; the steps are taken for the nodes by rising
/// number. A run drops all of them at once, and looks once at each link into a node that stays.
#[derive(Drop)]
pub struct Prune;

impl Pass for Prune {
    ghost step = { Prunes };

    ghost turn = { Exhausts Prunes };

    fn run(&mut self, graph: &mut Graph) -> Result<bool, NoMemory>
        requires { IsSound graph.old.nodes }
        ensures ran { Ran Prunes graph.old.nodes result graph.new.nodes }
        ensures done { OnOk result (IsDone Prunes graph.new.nodes) }
        ensures turn { OnOk result (Exhausts Prunes graph.old.nodes graph.new.nodes) }
    {
        let unseen = unseen_nodes(graph)?;
        graph.drop_set(&unseen);
        Ok(!unseen.is_empty())
    }

    ghost use Rattle.prune.specs.PruneLaws.{prune_sound, prune_refines, prune_falls};

    ghost keeps_sound = { prune_sound };

    ghost refines = { prune_refines };

    ghost falls = { prune_falls };
}

// The nodes that reach no node that is shown or clicked, by rising number.
fn unseen_nodes(graph: &Graph) -> Result<Vec<NodeKey>, NoMemory>
    requires { IsSound graph.now.nodes }
    ensures { IfOk result (λ keys. AreUnseen graph.now.nodes keys.items) }
{
    let mut keys = graph.keys()?;
    let marks = search::seen_nodes(*keys.allocator(), graph, &keys)?;
    keep_unmarked(&mut keys, &marks);
    Ok(keys)
}

fn keep_unmarked(keys: &mut Vec<NodeKey>, marks: &[bool])
    ensures { keys.new.items ≡ filter (is_unmarked marks.now) keys.old.items }
{
    keys.retain(|key| search::is_unmarked(marks, *key));
}
