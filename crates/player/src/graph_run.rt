//! Plays a graph.

ghost use Rattle.std.specs.Prelude.{◌≡◌, ◌≤◌, true, false, IsTrue, IfOk, OnErr};
ghost use Rattle.rp_io.specs.Causes.{HasCause};
ghost use Rattle.circuit.specs.Taken.{EachActTaken};
ghost use Rattle.graph.specs.Graph.{node_count};
ghost use Rattle.graph.specs.GraphCircuit.{graph_circuit};
ghost use Rattle.graph.specs.Sound.{IsSound};
ghost use Rattle.graph_machine.specs.Playing.{state_in};
ghost use Rattle.report.specs.Header.{header};
ghost use Rattle.player.specs.Ending.{EndsWriting};
ghost use Rattle.player.specs.Played.{RanGraph, WroteGraphRun, WroteGraphRunPrefix};
ghost use Rattle.player.specs.Started.{HasStarted, IsStarted, IsReady};

use crate::PlayRefusal;
use crate::graph_play::{GraphPlay, with_events};
use crate::lines::{trailer_line, zeros};
use crate::plays::{play_on, put_run};
use build::OutPlace;
use graph::Graph;
use graph_machine::{Fired, Machine, Steps};
use report::{Counts, LineBuf, push_header};
use rp_io::{Sink, WriteFault};
use rp_text::NoMemory;
use script::Script;
use std::alloc::Global;
use std::marker::Model;
use std::sync::ledger::Ledger;
use view_text::LastView;

/// A graph that has just started, with what its outputs show.
#[derive(Drop)]
struct Started<'a> {
    play: GraphPlay<'a>,
    shown: LastView,
}

/// Starts a graph. Its order is noted where it is to be shown.
fn start<'a>(alloc: Global, graph: &'a Graph, is_ordered: bool) -> Result<Started<'a>, NoMemory>
    requires { IsSound graph.now.nodes }
    ensures { IfOk result (λ started. IsStarted graph.now.nodes is_ordered started.play.machine started.play.is_ordered started.play.counts started.shown) }
{
    let counts = Counts {
        nodes: graph.node_count(),
        links: graph.link_count(),
        events: 0,
    };
    let fired = room_for(alloc, graph, is_ordered)?;
    let machine = Machine::start(alloc, graph)?;
    let mut values = zeros(alloc, machine.output_count())?;
    let seen = values.as_mut_slice();
    machine.view(seen);
    let shown = LastView::new(alloc, seen)?;
    Ok(Started {
        play: GraphPlay {
            graph,
            machine,
            counts,
            values,
            is_ordered,
            fired,
        },
        shown,
    })
}

/// Room for the keys that fire in a tick, where they are noted.
fn room_for(alloc: Global, graph: &Graph, is_ordered: bool) -> Result<Fired, NoMemory>
    ensures { IfOk result (λ fired. IsTrue is_ordered → node_count graph.now.nodes ≤ fired.room) }
{
    let room = if is_ordered {
        graph.node_count() as usize
    } else {
        0
    };
    Fired::new(alloc, room)
}

/// A graph that is ready to be played, with all memory that its run takes.
#[derive(Drop)]
pub struct ReadyGraph<'a> {
    header: Vec<u8>,
    play: GraphPlay<'a>,
    shown: LastView,
    line: LineBuf,
}

impl<'a> Model for ReadyGraph<'a> {
    ghost use Rattle.player.specs.Started.{Ready, IsReady};

    ghost Value = { Ready };

    ghost view = { λ r. record { nodes = r.play.machine.nodes; header = r.header.items; is_ordered = r.play.is_ordered } };

    ghost invariant = { λ r. IsReady r.play.machine r.play.counts r.shown r.line };
}

impl<'a> ReadyGraph<'a> {
    /// Takes all memory of a run of this graph under the header of these places. With its order,
    /// the lines of what fired are written too.
    pub fn new(
        alloc: Global,
        graph: &'a Graph,
        places: &[OutPlace],
        is_ordered: bool,
    ) -> Result<Self, NoMemory>
        requires { IsSound graph.now.nodes }
        ensures { IfOk result (λ ready. ready ≡ record { nodes = graph.now.nodes; header = header places.now; is_ordered = is_ordered }) }
    {
        let mut header = Vec::new(alloc);
        push_header(&mut header, places)?;
        let line = trailer_line(alloc)?;
        let Started { play, shown } = start(alloc, graph, is_ordered)?;
        Ok(ReadyGraph {
            header,
            play,
            shown,
            line,
        })
    }

    /// Writes the run of a script: the header, a line for each view, before the line of a tick what
    /// fired in it where the order is shown, and the trailer with the counts, which it gives. It
    /// takes no memory. `steps` counts the reads of links.
    pub fn put<O: Sink, L: Ledger>(
        self,
        script: &Script,
        out: &mut O,
        steps: &mut Steps<L>,
    ) -> Result<Counts, WriteFault>
        requires { EachActTaken (graph_circuit self.nodes) script.now.acts }
        ensures done { IfOk result (λ counts. WroteGraphRun self.entry.is_ordered self.entry.nodes self.entry.header script.now.acts counts (O.written out.old) (O.written out.new) steps.old steps.new) }
        ensures front { OnErr result (WroteGraphRunPrefix self.entry.is_ordered self.entry.nodes self.entry.header script.now.acts (O.written out.old) (O.written out.new) steps.old steps.new) }
        ensures cause { HasCause (O.faults out.old) (O.faults out.new) result }
    {
        let ReadyGraph {
            header,
            mut play,
            mut shown,
            mut line,
        } = self;
        put_graph(
            &header, script, &mut play, &mut shown, &mut line, out, steps,
        )
    }
}

/// Writes the run of a graph that has just started.
fn put_graph<O: Sink, L: Ledger>(
    header: &[u8],
    script: &Script,
    play: &mut GraphPlay<'_>,
    shown: &mut LastView,
    line: &mut LineBuf,
    out: &mut O,
    steps: &mut Steps<L>,
) -> Result<Counts, WriteFault>
    requires ready { IsReady play.old.machine play.old.counts shown.old line.old }
    requires taken { EachActTaken (graph_circuit play.old.machine.nodes) script.now.acts }
    ensures done { IfOk result (λ counts. WroteGraphRun play.old.is_ordered play.old.machine.nodes header.now script.now.acts counts (O.written out.old) (O.written out.new) steps.old steps.new) }
    ensures front { OnErr result (WroteGraphRunPrefix play.old.is_ordered play.old.machine.nodes header.now script.now.acts (O.written out.old) (O.written out.new) steps.old steps.new) }
    ensures cause { HasCause (O.faults out.old) (O.faults out.new) result }
{
    let counts = play.counts;
    put_run(header, script, play, shown, line, out, steps)?;
    Ok(with_events(counts, play.machine.events()))
}

/// Writes the run of a script by a graph, as `play` and `play_ordered` say.
fn play_by<O: Sink, L: Ledger>(
    alloc: Global,
    graph: &Graph,
    places: &[OutPlace],
    is_ordered: bool,
    script: &Script,
    out: &mut O,
    steps: &mut Steps<L>,
) -> Result<Counts, PlayRefusal>
    requires sound { IsSound graph.now.nodes }
    requires taken { EachActTaken (graph_circuit graph.now.nodes) script.now.acts }
    ensures { EndsWriting (λ counts. WroteGraphRun is_ordered graph.now.nodes (header places.now) script.now.acts counts (O.written out.old) (O.written out.new) steps.old steps.new)
        (WroteGraphRunPrefix is_ordered graph.now.nodes (header places.now) script.now.acts (O.written out.old) (O.written out.new) steps.old steps.new)
        ((out.new ≡ out.old) × (steps.new ≡ steps.old)) (O.faults out.old) (O.faults out.new) result }
{
    let ready = ReadyGraph::new(alloc, graph, places, is_ordered)?;
    match ready.put(script, out, steps) {
        Ok(counts) => Ok(counts),
        Err(WriteFault) => Err(PlayRefusal::WriteFault),
    }
}

/// Plays a script on a graph: the header of these places, whatever they are, a line for each view
/// of the graph's outputs in order of places, and the trailer with the counts, which it gives. All
/// memory is taken before the first write. `steps` counts the reads of links.
pub fn play<O: Sink, L: Ledger>(
    alloc: Global,
    graph: &Graph,
    places: &[OutPlace],
    script: &Script,
    out: &mut O,
    steps: &mut Steps<L>,
) -> Result<Counts, PlayRefusal>
    requires sound { IsSound graph.now.nodes }
    requires taken { EachActTaken (graph_circuit graph.now.nodes) script.now.acts }
    ensures { EndsWriting (λ counts. WroteGraphRun false graph.now.nodes (header places.now) script.now.acts counts (O.written out.old) (O.written out.new) steps.old steps.new)
        (WroteGraphRunPrefix false graph.now.nodes (header places.now) script.now.acts (O.written out.old) (O.written out.new) steps.old steps.new)
        ((out.new ≡ out.old) × (steps.new ≡ steps.old)) (O.faults out.old) (O.faults out.new) result }
{
    play_by(alloc, graph, places, false, script, out, steps)
}

/// As `play`, with a line for each place that fired before the line of its tick: for each node its
/// place and then those that it stands for too.
pub fn play_ordered<O: Sink, L: Ledger>(
    alloc: Global,
    graph: &Graph,
    places: &[OutPlace],
    script: &Script,
    out: &mut O,
    steps: &mut Steps<L>,
) -> Result<Counts, PlayRefusal>
    requires sound { IsSound graph.now.nodes }
    requires taken { EachActTaken (graph_circuit graph.now.nodes) script.now.acts }
    ensures { EndsWriting (λ counts. WroteGraphRun true graph.now.nodes (header places.now) script.now.acts counts (O.written out.old) (O.written out.new) steps.old steps.new)
        (WroteGraphRunPrefix true graph.now.nodes (header places.now) script.now.acts (O.written out.old) (O.written out.new) steps.old steps.new)
        ((out.new ≡ out.old) × (steps.new ≡ steps.old)) (O.faults out.old) (O.faults out.new) result }
{
    play_by(alloc, graph, places, true, script, out, steps)
}

/// What a run of a graph came to: its counts, what its last view shows, 0 or 1, and of a wire its
/// power, and the machine at its end.
#[derive(Drop)]
pub struct GraphEnd {
    pub counts: Counts,
    pub values: Vec<u8>,
    pub machine: Machine,
}

/// Plays a script on a graph, and writes nothing.
pub fn play_silently<L: Ledger>(
    alloc: Global,
    graph: &Graph,
    script: &Script,
    steps: &mut Steps<L>,
) -> Result<GraphEnd, NoMemory>
    requires sound { IsSound graph.now.nodes }
    requires taken { EachActTaken (graph_circuit graph.now.nodes) script.now.acts }
    ensures ran { IfOk result (λ end. RanGraph graph.now.nodes script.now.acts end.counts end.values.items (state_in end.machine) steps.old steps.new) }
    ensures circuit { IfOk result (λ end. graph_circuit end.machine.nodes ≡ graph_circuit graph.now.nodes) }
    ensures nothing { OnErr result (steps.new ≡ steps.old) }
{
    let Started {
        mut play,
        mut shown,
    } = start(alloc, graph, false)?;
    let counts = play_graph(script, &mut play, &mut shown, steps);
    let GraphPlay { machine, .. } = play;
    Ok(GraphEnd {
        counts,
        values: shown.into_values(),
        machine,
    })
}

/// Plays a graph that has just started to the end of a script.
fn play_graph<L: Ledger>(
    script: &Script,
    play: &mut GraphPlay<'_>,
    shown: &mut LastView,
    steps: &mut Steps<L>,
) -> Counts
    requires started { HasStarted play.old.machine.nodes play.old.machine play.old.counts shown.old }
    requires taken { EachActTaken (graph_circuit play.old.machine.nodes) script.now.acts }
    ensures ran { RanGraph play.old.machine.nodes script.now.acts result shown.new (state_in play.new.machine) steps.old steps.new }
    ensures circuit { graph_circuit play.new.machine.nodes ≡ graph_circuit play.old.machine.nodes }
{
    let counts = play.counts;
    play_on(script, play, shown, steps);
    with_events(counts, play.machine.events())
}
