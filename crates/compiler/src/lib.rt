//! Compiles builds to graphs.
#![tactic(auto)]

ghost use Rattle.std.specs.Prelude.{◌≡◌, true, false, IfOk, OnOk};
ghost use Rattle.graph.specs.Done.{Step, IsDone};
ghost use Rattle.graph.specs.Sound.{IsSound};
ghost use Rattle.pass_frame.specs.Frame.{Reaches};
ghost use Rattle.pass_frame.specs.Rounds.{Rounds};
ghost use Rattle.compiler.specs.Compiled.{Compiled, Round, prunes};
ghost use Rattle.input_search.specs.Raw.{raw};

use build::{Build, Marks};
use clamp_dedup::{Clamp, Dedup};
use coalesce::Coalesce;
use constant_fold::Fold;
use graph::Graph;
use pass_frame::{Pass, Stable, Then, When};
use prune::Prune;
use rp_text::NoMemory;
use std::alloc::Global;
use unreach::Unreach;

pub mod laws;

/// What the compiler keeps of the nodes that nobody sees.
#[derive(Clone, Copy, Debug, PartialEq, Eq)]
pub enum Keep {
    /// Nothing: what is neither shown nor clicked, nor leads to what is, is pruned.
    Prune,
    /// All of them.
    All,
}

/// The graph of a build before any pass: its nodes in order of places, with a link from each
/// component that may give a node power. A mark where no wire stands counts for nothing.
pub fn raw_graph(alloc: Global, build: &Build, marks: &Marks) -> Result<Graph, NoMemory>
    ensures { IfOk result (λ graph. graph.nodes ≡ raw build.now marks.now) }
{
    let mut graph = node_finder::find(alloc, build, marks)?;
    input_search::link(alloc, build, &mut graph)?;
    Ok(graph)
}

/// The graph of a build after all passes, each of which takes nodes by rising number: clamp,
/// dedup, unreach, fold, coalesce and, unless all nodes are kept, prune, until no step is left.
pub fn compile_build(
    alloc: Global,
    build: &Build,
    marks: &Marks,
    keep: Keep,
) -> Result<Graph, NoMemory>
    ensures { IfOk result (λ graph. Compiled build.now marks.now keep graph.nodes) }
{
    let _ = build.cells();
    let mut graph = raw_graph(alloc, build, marks)?;
    run_passes(&mut graph, keep)?;
    Ok(graph)
}

// Runs the passes until no step is left.
fn run_passes(graph: &mut Graph, keep: Keep) -> Result<(), NoMemory>
    requires { IsSound graph.old.nodes }
    ensures steps { OnOk result (Reaches (Step (prunes keep)) graph.old.nodes graph.new.nodes) }
    ensures done { OnOk result (IsDone (prunes keep) graph.new.nodes) }
    ensures rounds { OnOk result (Rounds (Round (prunes keep)) graph.old.nodes graph.new.nodes) }
{
    match keep {
        Keep::Prune => run_chain::<true>(graph),
        Keep::All => run_chain::<false>(graph),
    }
}

// Runs the chain of the passes until no step is left, with `Prune` at its end if nodes are pruned.
fn run_chain<const PRUNES: bool>(graph: &mut Graph) -> Result<(), NoMemory>
    requires { IsSound graph.old.nodes }
    ensures steps { OnOk result (Reaches (Step PRUNES) graph.old.nodes graph.new.nodes) }
    ensures done { OnOk result (IsDone PRUNES graph.new.nodes) }
    ensures rounds { OnOk result (Rounds (Round PRUNES) graph.old.nodes graph.new.nodes) }
{
    let mut passes = Stable {
        pass: Then {
            first: Clamp,
            second: Then {
                first: Dedup,
                second: Then {
                    first: Unreach,
                    second: Then {
                        first: Fold,
                        second: Then {
                            first: Coalesce,
                            second: When::<Prune, PRUNES> { pass: Prune },
                        },
                    },
                },
            },
        },
    };
    passes.run(graph)?;
    Ok(())
}
