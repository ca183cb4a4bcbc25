//! The pass of the compiler that makes one node of two that always do the same.
#![tactic(auto)]

ghost use Rattle.std.specs.Prelude.{OnOk};
ghost use Rattle.graph.specs.Sound.{IsSound};
ghost use Rattle.graph.specs.Steps.{Coalesces};
ghost use Rattle.pass_frame.specs.Frame.{Ran, IsDone};
ghost use Rattle.pass_frame.specs.Rounds.{Rounds};
ghost use Rattle.coalesce.specs.Sweeps.{SweepsOnce};

use graph::Graph;
use pass_frame::Pass;
use rp_text::NoMemory;

mod fan_outs;
pub mod laws;
mod looks;
mod pairs;
mod sources;
mod sweep;
#[cfg(test)]
mod tests;
mod waiting;

/// Of two nodes that always do the same, the lower takes the part of the other.
///
/// It goes over the nodes by rising number and, for each, over the higher ones by rising number,
/// and repeats this until it takes nothing. So after `Ok` no step is enabled. A round but the first
/// looks only at nodes that read one that took a twin, and each node is tried with those alone that
/// are equal to it and read the same node.
#[derive(Drop)]
pub struct Coalesce;

impl Pass for Coalesce {
    ghost step = { Coalesces };

    ghost turn = { Rounds SweepsOnce };

    fn run(&mut self, graph: &mut Graph) -> Result<bool, NoMemory>
        requires { IsSound graph.old.nodes }
        ensures ran { Ran Coalesces graph.old.nodes result graph.new.nodes }
        ensures done { OnOk result (IsDone Coalesces graph.new.nodes) }
        ensures turn { OnOk result (Rounds SweepsOnce graph.old.nodes graph.new.nodes) }
    {
        sweep::take_all(graph)
    }

    ghost use Rattle.coalesce.specs.CoalesceLaws.{coalesce_sound, coalesce_refines, coalesce_falls};

    ghost keeps_sound = { coalesce_sound };

    ghost refines = { coalesce_refines };

    ghost falls = { coalesce_falls };
}
