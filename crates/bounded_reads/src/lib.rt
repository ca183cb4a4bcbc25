//! A worked example of bounded reads: two lamps that read one torch, which reads a lever.
#![tactic(auto)]

ghost use Rattle.std.specs.Prelude.{◌≡◌, ◌≤◌, ◌+◌, ℕ, List};
ghost use Rattle.circuit.specs.Circuit.{State, start};
ghost use Rattle.circuit.specs.Shows.{Run, steps_of};
ghost use Rattle.graph.specs.GraphCircuit.{graph_circuit};
ghost use Rattle.graph_machine.specs.Outgoing.{reads_of};
ghost use Rattle.player.specs.Cost.{cost_of_run};
ghost use Rattle.bounded_reads.specs.Twins.{twins, acts};

use build::OutPlace;
use circuit::{Click, Pos};
use graph::Graph;
use graph_machine::{Machine, Steps};
use player::{PlayRefusal, play};
use rp_io::Sink;
use rp_text::NoMemory;
use script::Script;
use std::alloc::Global;
use std::sync::ledger::Ledger;

#[cfg(test)]
mod tests;

/// Where the lever stands.
pub const LEVER: Pos = Pos { x: 3, y: 0, z: 0 };

/// In each run of the twins in which the lever is used and three ticks pass the events read at
/// most 10 links: 3 for the lever, 5 for the torch, and 1 for each lamp.
pub fn a_run_of_the_twins_reads_ten()
    ensures { (order views : List (List ℕ)) (last : State ℕ) → (run : Run (graph_circuit twins) (start (graph_circuit twins)) (steps_of acts) order views last) →
        cost_of_run (reads_of twins) run ≤ 10 }
{}

/// Plays such a run by the calls of the machine.
pub fn read_by_calls<L: Ledger>(
    alloc: Global,
    graph: &Graph,
    steps: &mut Steps<L>,
) -> Result<(), NoMemory>
    requires { graph.now.nodes ≡ twins }
    ensures { steps.new ≤ steps.old + 10 }
{
    let mut machine = Machine::start(alloc, graph)?;
    match machine.click(LEVER, Click::Use, steps) {
        Ok(()) => {}
        Err(_) => return Ok(()),
    }
    machine.tick(steps);
    machine.tick(steps);
    machine.tick(steps);
    Ok(())
}

/// Plays such a run by one call, which writes it under the header of these places.
pub fn read_by_play<O: Sink, L: Ledger>(
    alloc: Global,
    graph: &Graph,
    places: &[OutPlace],
    script: &Script,
    out: &mut O,
    steps: &mut Steps<L>,
) -> Result<(), PlayRefusal>
    requires graph { graph.now.nodes ≡ twins }
    requires script { script.now.acts ≡ acts }
    ensures { steps.new ≤ steps.old + 10 }
{
    match play(alloc, graph, places, script, out, steps) {
        Ok(_) => Ok(()),
        Err(refusal) => Err(refusal),
    }
}
