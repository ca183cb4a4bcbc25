//! Passes of the compiler: each makes a graph smaller by steps after which it shows nothing new.
#![tactic(auto)]

ghost use Rattle.std.specs.Prelude.{◌≡◌, ◌<◌, ◌⊎◌, true, OnOk};
ghost use Rattle.graph.specs.Graph.{Nodes};
ghost use Rattle.graph.specs.Sound.{IsSound};
ghost use Rattle.graph.specs.Refines.{Refines};
ghost use Rattle.graph.specs.Measure.{measure};
ghost use Rattle.pass_frame.specs.Frame.{Ran, IsDone};
ghost use Rattle.pass_frame.specs.Rounds.{InTurn, TurnWhen, Rounds};

use graph::Graph;
use rp_text::NoMemory;

pub mod laws;
#[cfg(test)]
mod tests;

/// Takes steps of one kind on a graph.
///
/// An `impl` says by `step` what its steps are, and proves of each step from a sound graph that
/// it leaves a sound graph, that all that the new graph shows the old one shows, and that it
/// lowers the measure: nodes, plus links, plus nodes that aren't Constant. By `turn` it says which
/// steps a whole run takes.
pub trait Pass {
    // a step of the pass leads from the old nodes to the new ones
    ghost step: { Nodes → Nodes → Type 0 };

    // a whole run leads from the old nodes to the new ones
    ghost turn: { Nodes → Nodes → Type 0 };

    /// Takes steps, and says whether it took any: `Ok(false)` comes exactly where no step was
    /// enabled, and the graph is unchanged then. After `NoMemory` it was changed by whole steps.
    fn run(&mut self, graph: &mut Graph) -> Result<bool, NoMemory>
        requires { IsSound graph.old.nodes }
        ensures ran { Ran step graph.old.nodes result graph.new.nodes }
        ensures turn { OnOk result (turn graph.old.nodes graph.new.nodes) };

    ghost keeps_sound: { (old new : Nodes) → IsSound old → step old new → IsSound new };

    ghost refines: { (old new : Nodes) → IsSound old → step old new → Refines old new };

    ghost falls: { (old new : Nodes) → IsSound old → step old new → measure new < measure old };
}

/// Runs the first pass, then the second. Its steps are those of both. After `Ok(true)` a step of
/// the first may be enabled again.
#[derive(Drop)]
pub struct Then<P, Q> {
    pub first: P,
    pub second: Q,
}

impl<P: Pass, Q: Pass> Pass for Then<P, Q> {
    ghost step = { λ old new. P.step old new ⊎ Q.step old new };

    ghost turn = { InTurn P.turn Q.turn };

    fn run(&mut self, graph: &mut Graph) -> Result<bool, NoMemory> {
        let first = self.first.run(graph)?;
        let second = self.second.run(graph)?;
        Ok(first || second)
    }

    ghost use Rattle.pass_frame.specs.EitherLaws.{either_sound, either_refines, either_falls};

    ghost keeps_sound = { either_sound P.step Q.step P.keeps_sound Q.keeps_sound };

    ghost refines = { either_refines P.step Q.step P.refines Q.refines };

    ghost falls = { either_falls P.step Q.step P.falls Q.falls };
}

/// Runs a pass until it answers that it took no step. Its steps are those of the pass.
#[derive(Drop)]
pub struct Stable<P> {
    pub pass: P,
}

impl<P: Pass> Pass for Stable<P> {
    ghost step = { P.step };

    ghost turn = { Rounds P.turn };

    fn run(&mut self, graph: &mut Graph) -> Result<bool, NoMemory>
        requires { IsSound graph.old.nodes }
        ensures ran { Ran P.step graph.old.nodes result graph.new.nodes }
        ensures turn { OnOk result (Rounds P.turn graph.old.nodes graph.new.nodes) }
        ensures done { OnOk result (IsDone P.step graph.new.nodes) }
    {
        let mut took = false;
        while self.pass.run(graph)? {
            took = true;
        }
        Ok(took)
    }

    ghost keeps_sound = { P.keeps_sound };

    ghost refines = { P.refines };

    ghost falls = { P.falls };
}

/// Runs a pass where `ON` is true, and else nothing. Its steps are those of the pass, or none.
#[derive(Drop)]
pub struct When<P, const ON: bool> {
    pub pass: P,
}

impl<P: Pass, const ON: bool> Pass for When<P, ON> {
    ghost step = { λ old new. (ON ≡ true) × P.step old new };

    ghost turn = { TurnWhen ON P.turn };

    fn run(&mut self, graph: &mut Graph) -> Result<bool, NoMemory> {
        if ON { self.pass.run(graph) } else { Ok(false) }
    }

    ghost use Rattle.pass_frame.specs.WhenLaws.{when_sound, when_refines, when_falls};

    ghost keeps_sound = { when_sound ON P.step P.keeps_sound };

    ghost refines = { when_refines ON P.step P.refines };

    ghost falls = { when_falls ON P.step P.falls };
}
