//! Hands the end of a run of a graph back into the build that the graph was compiled from.
#![tactic(auto)]

ghost use Rattle.std.specs.Prelude.{◌≡◌, IfOk};
ghost use Rattle.graph.specs.GraphCircuit.{graph_circuit};
ghost use Rattle.graph.specs.Sound.{IsSound};
ghost use Rattle.graph_machine.specs.Playing.{state_in};
ghost use Rattle.handover.specs.GivenBack.{given_back};
ghost use Rattle.handover.specs.Ended.{HasItsBlocks, IsPlayed};

use build::Build;
use graph::Graph;
use graph_machine::Machine;
use rp_text::NoMemory;
use std::alloc::Global;

mod given;
mod held;
pub mod laws;
mod notes;
mod values;

/// The build with what the nodes hold at the end of a run. Each node but Constants and wires
/// gives its state to its places, and its pending tick to each of them. All other blocks and
/// outputs stay, and no other tick is pending. The ticks stand in order of places.
pub fn give_back(
    alloc: Global,
    build: &Build,
    graph: &Graph,
    machine: &Machine,
) -> Result<Build, NoMemory>
    requires sound { IsSound graph.now.nodes }
    requires blocks { HasItsBlocks build.now graph.now.nodes }
    requires started { graph_circuit machine.now.nodes ≡ graph_circuit graph.now.nodes }
    requires played { IsPlayed graph.now.nodes (state_in machine.now) }
    ensures { IfOk result (λ after. after ≡ given_back build.now graph.now.nodes (state_in machine.now)) }
{
    let held = held::held_by_cell(alloc, build, graph, machine)?;
    let mut after = given::with_blocks(alloc, build, &held)?;
    given::give_levels(build, &held, &mut after)?;
    given::give_ticks(build, &held, &mut after)?;
    Ok(after)
}
