//! A graph that is played step by step.

ghost use Rattle.std.specs.Prelude.{◌≡◌, ◌≤◌, ◌<◌, ◌+◌, ◌-◌, ◌/◌, ◌^◌, min, length, IsTrue, OnOk, OnErr};
ghost use Rattle.std.specs.List.{flat_map};
ghost use Rattle.rp_io.specs.Causes.{HasCause, Wrote, WrotePrefix};
ghost use Rattle.circuit.specs.Circuit.{view, start};
ghost use Rattle.graph.specs.Graph.{node_count};
ghost use Rattle.graph.specs.GraphCircuit.{graph_circuit};
ghost use Rattle.graph_machine.specs.Playing.{state_in};
ghost use Rattle.report.specs.FireLine.{fire_line};
ghost use Rattle.player.specs.Moments.{moment_after};
ghost use Rattle.player.specs.Noted.{fires_noted, node_lines};
ghost use Rattle.player.specs.Played.{NotesStep, TakenStep, with_events};

use crate::plays::Plays;
use build::Pos;
use circuit::Step;
use graph::{Graph, NodeKey};
use graph_machine::{Fired, Machine, Steps};
use report::{Counts, LineBuf, push_fire};
use rp_io::{Sink, WriteFault, put_all};
use std::sync::ledger::Ledger;
use view_text::LastView;

/// A graph with the machine that plays it, the numbers of its nodes and links, room for what its
/// outputs show, and the keys that fired in the last step where its order is shown.
#[derive(Drop)]
pub struct GraphPlay<'a> {
    pub graph: &'a Graph,
    pub machine: Machine,
    pub counts: Counts,
    pub values: Vec<u8>,
    pub is_ordered: bool,
    pub fired: Fired,
    pub ghost same: { graph.now.nodes ≡ machine.nodes },
    pub ghost room: { length values.items ≡ length (graph_circuit machine.nodes).shown },
    pub ghost fits: { IsTrue is_ordered → node_count machine.nodes ≤ fired.room },
}

impl<'a, L: Ledger> Plays<Steps<L>> for GraphPlay<'a> {
    ghost use Rattle.std.specs.Prelude.{ℕ};
    ghost use Rattle.graph_machine.specs.Outgoing.{reads_of};
    ghost use Rattle.report.specs.Trailers.{run_trailer};
    ghost use Rattle.player.specs.AllKeys.{graph_keys};

    ghost Key = { ℕ };

    ghost circuit = { λ p. graph_circuit p.machine.nodes };

    ghost state = { λ p. state_in p.machine };

    ghost counted = { λ p count. count ≡ p.machine.events };

    ghost cost = { λ p. reads_of p.machine.nodes };

    ghost spent = { λ steps. steps };

    ghost trailer = { λ p count. run_trailer (with_events p.counts count) };

    ghost ahead = { λ p. min (2 ^ 62 - p.machine.time) ((2 ^ 62 - p.machine.events) / 2 ^ 32) };

    ghost note = { λ p. fires_noted p.is_ordered p.machine.nodes };

    ghost noted = { λ p. fires_noted p.is_ordered p.machine.nodes p.fired.keys };

    fn time(&self) -> u64 {
        self.machine.time()
    }

    fn step(&mut self, step: Step, shown: &mut LastView, costs: &mut Steps<L>) {
        take_step(
            &mut self.machine,
            self.is_ordered,
            &mut self.fired,
            step,
            costs,
        );
        self.machine.view(&mut self.values);
        shown.set_all(&self.values);
    }

    fn put_noted<O: Sink>(&self, line: &mut LineBuf, out: &mut O) -> Result<(), WriteFault> {
        if self.is_ordered {
            put_fired(self.graph, self.fired.keys(), line, out)
        } else {
            put_all(out, &[])
        }
    }

    fn counts(&self) -> Option<Counts> {
        Some(with_events(self.counts, self.machine.events()))
    }

    ghost keys = { λ p. graph_keys p.machine.nodes };
}

/// These counts, with so many events.
pub fn with_events(counts: Counts, events: u64) -> Counts
    ensures { result ≡ with_events counts events }
{
    Counts { events, ..counts }
}

/// Takes a step, and notes the keys that fired where the order is shown.
fn take_step<L: Ledger>(
    machine: &mut Machine,
    is_ordered: bool,
    fired: &mut Fired,
    step: Step,
    steps: &mut Steps<L>,
)
    requires early { machine.old.time < 2 ^ 62 }
    requires few { machine.old.events < 2 ^ 62 }
    requires taken { TakenStep (graph_circuit machine.old.nodes) step }
    requires fits { IsTrue is_ordered → node_count machine.old.nodes ≤ fired.old.room }
    ensures nodes { machine.new.nodes ≡ machine.old.nodes }
    ensures few { machine.new.events ≤ machine.old.events + 2 ^ 32 }
    ensures time { machine.new.time ≡ (moment_after machine.old.time step).time }
    ensures soon { machine.new.time ≤ machine.old.time + 1 }
    ensures room { fired.new.room ≡ fired.old.room }
    ensures step { NotesStep machine.old.nodes is_ordered step (state_in machine.old) (state_in machine.new) machine.old.events machine.new.events steps.old steps.new fired.new.keys }
{
    fired.clear();
    match step {
        Step::Click { pos, click } => match machine.click(pos, click, steps) {
            Ok(()) => {}
            Err(_) => unreachable!(),
        },
        Step::Tick => {
            if is_ordered {
                machine.tick_noting(fired, steps)
            } else {
                machine.tick(steps)
            }
        }
    }
}

/// Writes a fire line for each place of each of these nodes, in their order.
fn put_fired<O: Sink>(
    graph: &Graph,
    keys: &[NodeKey],
    line: &mut LineBuf,
    out: &mut O,
) -> Result<(), WriteFault>
    requires room { 96 ≤ line.old.room }
    ensures room { line.new.room ≡ line.old.room }
    ensures all { OnOk result (Wrote (O.written out.old) (O.written out.new) (flat_map (node_lines graph.now.nodes) keys.now)) }
    ensures front { OnErr result (WrotePrefix (O.written out.old) (O.written out.new) (flat_map (node_lines graph.now.nodes) keys.now)) }
    ensures cause { HasCause (O.faults out.old) (O.faults out.new) result }
{
    for key in keys {
        put_node(graph, *key, line, out)?;
    }
    Ok(())
}

/// Writes a fire line for the place of a node, and then for each place that it stands for too.
fn put_node<O: Sink>(
    graph: &Graph,
    key: NodeKey,
    line: &mut LineBuf,
    out: &mut O,
) -> Result<(), WriteFault>
    requires room { 96 ≤ line.old.room }
    ensures room { line.new.room ≡ line.old.room }
    ensures all { OnOk result (Wrote (O.written out.old) (O.written out.new) (node_lines graph.now.nodes key)) }
    ensures front { OnErr result (WrotePrefix (O.written out.old) (O.written out.new) (node_lines graph.now.nodes key)) }
    ensures cause { HasCause (O.faults out.old) (O.faults out.new) result }
{
    match graph.node(key) {
        Some(node) => {
            put_fire(node.pos, line, out)?;
            put_fires(&node.also.items, line, out)
        }
        None => put_all(out, &[]),
    }
}

fn put_fires<O: Sink>(places: &[Pos], line: &mut LineBuf, out: &mut O) -> Result<(), WriteFault>
    requires room { 96 ≤ line.old.room }
    ensures room { line.new.room ≡ line.old.room }
    ensures all { OnOk result (Wrote (O.written out.old) (O.written out.new) (flat_map fire_line places.now)) }
    ensures front { OnErr result (WrotePrefix (O.written out.old) (O.written out.new) (flat_map fire_line places.now)) }
    ensures cause { HasCause (O.faults out.old) (O.faults out.new) result }
{
    for pos in places {
        put_fire(*pos, line, out)?;
    }
    Ok(())
}

/// Writes the line of a place that fired, in one piece.
fn put_fire<O: Sink>(pos: Pos, line: &mut LineBuf, out: &mut O) -> Result<(), WriteFault>
    requires room { 96 ≤ line.old.room }
    ensures room { line.new.room ≡ line.old.room }
    ensures all { OnOk result (Wrote (O.written out.old) (O.written out.new) (fire_line pos)) }
    ensures front { OnErr result (WrotePrefix (O.written out.old) (O.written out.new) (fire_line pos)) }
    ensures cause { HasCause (O.faults out.old) (O.faults out.new) result }
{
    line.clear();
    push_fire(line, pos);
    put_all(out, line.bytes())
}
