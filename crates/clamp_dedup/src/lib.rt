//! Two passes that drop links: those that weigh too much to bring anything, and those beside a
//! lighter one.
#![tactic(auto)]

ghost use Rattle.std.specs.Prelude.{OnOk};
ghost use Rattle.graph.specs.Sound.{IsSound};
ghost use Rattle.graph.specs.Steps.{Clamps, Dedups};
ghost use Rattle.pass_frame.specs.Frame.{Ran, IsDone};
ghost use Rattle.pass_frame.specs.Rounds.{Exhausts};

use graph::Graph;
use pass_frame::Pass;
use rp_text::NoMemory;
use weights::Weights;

mod doubled;
mod heavy;
pub mod laws;
mod weights;

/// Drops each link that weighs 15 or more.
///
/// It looks at each link once, and once more into a node where one goes.
#[derive(Drop)]
pub struct Clamp;

impl Pass for Clamp {
    ghost step = { Clamps };

    ghost turn = { Exhausts Clamps };

    fn run(&mut self, graph: &mut Graph) -> Result<bool, NoMemory>
        requires { IsSound graph.old.nodes }
        ensures ran { Ran Clamps graph.old.nodes result graph.new.nodes }
        ensures done { OnOk result (IsDone Clamps graph.new.nodes) }
        ensures turn { OnOk result (Exhausts Clamps graph.old.nodes graph.new.nodes) }
    {
        let mut took = false;
        let keys = graph.keys()?;
        for key in &keys {
            took |= heavy::drop_heavy_links(graph, *key);
        }
        Ok(took)
    }

    ghost use Rattle.clamp_dedup.specs.ClampLaws.{clamp_keeps_sound, clamp_refines, clamp_falls};

    ghost keeps_sound = { clamp_keeps_sound };

    ghost refines = { clamp_refines };

    ghost falls = { clamp_falls };
}

/// Of the links with the same ends and group it drops all but one that weighs least, and of
/// equal ones all but the first.
///
/// It looks at each pair of links into a node where these are few. Into the others it looks at each
/// link twice, and takes four bytes for each key up to the greatest if there is one.
#[derive(Drop)]
pub struct Dedup;

impl Pass for Dedup {
    ghost step = { Dedups };

    ghost turn = { Exhausts Dedups };

    fn run(&mut self, graph: &mut Graph) -> Result<bool, NoMemory>
        requires { IsSound graph.old.nodes }
        ensures ran { Ran Dedups graph.old.nodes result graph.new.nodes }
        ensures done { OnOk result (IsDone Dedups graph.new.nodes) }
        ensures turn { OnOk result (Exhausts Dedups graph.old.nodes graph.new.nodes) }
    {
        let keys = graph.keys()?;
        if doubled::have_few_single_links(graph, &keys) {
            return Ok(false);
        }
        let mut took = false;
        let mut weights = Weights::new(*keys.allocator(), &keys)?;
        for key in &keys {
            took |= doubled::drop_doubled_links(graph, *key, &mut weights);
        }
        Ok(took)
    }

    ghost use Rattle.clamp_dedup.specs.DedupLaws.{dedup_keeps_sound, dedup_refines, dedup_falls};

    ghost keeps_sound = { dedup_keeps_sound };

    ghost refines = { dedup_refines };

    ghost falls = { dedup_falls };
}
