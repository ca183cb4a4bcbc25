//! A compiled graph that plays.

ghost use Rattle.std.specs.Prelude.{◌≡◌, ◌+◌, ◌*◌, ◌<◌, ◌≤◌, ◌++◌, ◌^◌, ℕ, List, All, IfOk, IfSome, OnOk, OnErr, length};
ghost use Rattle.circuit.specs.Circuit.{start, view};
ghost use Rattle.circuit.specs.Taken.{Takes};
ghost use Rattle.graph.specs.Graph.{node_at, node_count};
ghost use Rattle.graph.specs.GraphCircuit.{graph_circuit};
ghost use Rattle.graph.specs.Sound.{IsSound};
ghost use Rattle.cell_queue.specs.Held.{cell_of, wait_of};
ghost use Rattle.graph_machine.specs.Playing.{state_in, TakesClick, TakesTick};
ghost use Rattle.graph_machine.specs.Shown.{node_state};

use crate::events::{attend_all, set_value, tick};
use crate::fired::Fired;
use crate::net::Net;
use crate::outputs::node_state;
use crate::places::{Keys, clicked_by, find_taker, shown_by};
use crate::screen::Screen;
use crate::steps::Steps;
use crate::wiring::begin_cells;
use build::ClickRefusal;
use cell_queue::{Cells, Wait};
use circuit::{Click, Pos};
use graph::{Graph, NodeKey, count_keys};
use rp_text::NoMemory;
use std::alloc::Global;
use std::marker::Model;
use std::sync::ledger::Ledger;

/// A graph that plays. All memory of its run is taken at the start.
#[derive(Drop)]
pub struct Machine {
    net: Net,
    cells: Cells,
    screen: Screen,
    // The keys that take clicks.
    clicked: Keys,
    // The keys that fired in the last tick.
    fired: Fired,
    events: u64,
}

impl Model for Machine {
    ghost use Rattle.graph_machine.specs.Playing.{Playing};
    ghost use Rattle.graph_machine.specs.Started.{IsStarted};

    ghost Value = { Playing };

    ghost view = { λ m. record { nodes = m.net.nodes; time = m.cells.time; cells = m.cells.cells; events = m.events } };

    ghost invariant = { λ m. IsStarted m.net m.cells m.screen m.clicked m.fired.room };
}

impl Machine {
    /// The graph's state, all nodes attending once.
    pub fn start(alloc: Global, graph: &Graph) -> Result<Machine, NoMemory>
        requires { IsSound graph.now.nodes }
        ensures nodes { IfOk result (λ machine. machine.nodes ≡ graph.now.nodes) }
        ensures start { IfOk result (λ machine. state_in machine ≡ start (graph_circuit graph.now.nodes)) }
        ensures events { IfOk result (λ machine. machine.events ≡ 0) }
    {
        let count = count_keys(graph)?;
        let shown = shown_by(alloc, graph, count)?;
        let clicked = clicked_by(alloc, graph, count)?;
        let net = Net::start(alloc, graph, count)?;
        let cells = begin_cells(alloc, graph, net.len())?;
        let mut cells = Cells::new(alloc, cells)?;
        attend_all(&net, &mut cells);
        let screen = Screen::new(alloc, &net, &cells, shown)?;
        let fired = Fired::new(alloc, graph.node_count() as usize)?;
        Ok(Machine {
            net,
            cells,
            screen,
            clicked,
            fired,
            events: 0,
        })
    }

    /// One click. It is refused exactly where no node of the place takes it.
    pub fn click<L: Ledger>(
        &mut self,
        pos: Pos,
        click: Click,
        steps: &mut Steps<L>,
    ) -> Result<(), ClickRefusal>
        requires { self.old.events < 2 ^ 62 }
        ensures nodes { self.new.nodes ≡ self.old.nodes }
        ensures time { self.new.time ≡ self.old.time }
        ensures taken { OnOk result (TakesClick self.old.nodes pos click (state_in self.old) (state_in self.new) steps.old steps.new) }
        ensures events { OnOk result (self.new.events ≡ self.old.events + 1) }
        ensures refused { OnErr result (Takes (graph_circuit self.old.nodes) pos click → ⊥) }
        ensures same { OnErr result (self.new ≡ self.old) }
        ensures unread { OnErr result (steps.new ≡ steps.old) }
    {
        let Some(key) = find_taker(&self.net, &self.clicked, pos, click) else {
            return Err(ClickRefusal::NotClickable);
        };
        let component = self.net.role(key).unwrap();
        let value = circuit::clicked(component, click, self.cells.cell(key).value).unwrap();
        set_value(
            &mut self.net,
            &mut self.cells,
            &mut self.screen,
            key,
            component,
            value,
            steps,
        );
        self.events += 1;
        Ok(())
    }

    /// One tick: the time rises by one, and what is due then fires, one by one, by rising
    /// priority.
    pub fn tick<L: Ledger>(&mut self, steps: &mut Steps<L>)
        requires early { self.old.time < 2 ^ 62 }
        requires few { self.old.events < 2 ^ 62 }
        ensures nodes { self.new.nodes ≡ self.old.nodes }
        ensures time { self.new.time ≡ self.old.time + 1 }
        ensures few { self.new.events ≤ self.old.events + 2 ^ 32 }
        ensures ticked { (keys : List ℕ) × TakesTick self.old.nodes keys (state_in self.old) (state_in self.new) self.old.events self.new.events steps.old steps.new }
    {
        self.fired.clear();
        let count = tick(
            &mut self.net,
            &mut self.cells,
            &mut self.screen,
            &mut self.fired,
            steps,
        );
        self.events += count;
    }

    /// One tick, whose firings are appended to `fired` in their order.
    pub fn tick_noting<L: Ledger>(&mut self, fired: &mut Fired, steps: &mut Steps<L>)
        requires early { self.old.time < 2 ^ 62 }
        requires few { self.old.events < 2 ^ 62 }
        requires room { node_count self.old.nodes ≤ fired.old.spare }
        ensures nodes { self.new.nodes ≡ self.old.nodes }
        ensures time { self.new.time ≡ self.old.time + 1 }
        ensures few { self.new.events ≤ self.old.events + 2 ^ 32 }
        ensures ticked { (keys : List ℕ) × TakesTick self.old.nodes keys (state_in self.old) (state_in self.new) self.old.events self.new.events steps.old steps.new × fired.new.keys ≡ fired.old.keys ++ keys }
        ensures room { fired.new.room ≡ fired.old.room }
    {
        let count = tick(
            &mut self.net,
            &mut self.cells,
            &mut self.screen,
            fired,
            steps,
        );
        self.events += count;
    }

    /// The number of ticks since the start.
    pub fn time(&self) -> u64
        ensures { result ≡ self.now.time }
    {
        self.cells.now()
    }

    /// The number of events: the clicks that were taken and the ticks that fired.
    pub fn events(&self) -> u64
        ensures { result ≡ self.now.events }
    {
        self.events
    }

    /// The number of outputs.
    pub fn output_count(&self) -> usize
        ensures { result ≡ length (graph_circuit self.now.nodes).shown }
    {
        self.screen.len()
    }

    /// What the outputs show, in the order of their places.
    pub fn view(&self, into: &mut [u8])
        requires { length into.old ≡ length (graph_circuit self.now.nodes).shown }
        ensures values { into.new ≡ view (graph_circuit self.now.nodes) (state_in self.now) }
        ensures small { All (λ value. value ≤ 15) into.new }
    {
        into.copy_from_slice(self.screen.shown());
    }

    /// The state of the node under the key, if the graph that was started has one there.
    pub fn node_state(&self, key: NodeKey) -> Option<u8>
        ensures { result ≡ node_state (node_at self.now.nodes key) (cell_of self.now.cells key) }
    {
        let key = key.number() as usize;
        node_state(&self.net, key, self.cells.cell(key))
    }

    /// The pending tick of the node under the key.
    pub fn node_wait(&self, key: NodeKey) -> Option<Wait>
        ensures value { result ≡ wait_of self.now.time (cell_of self.now.cells key) }
        ensures left { IfSome result (λ wait. (1 ≤ wait.left) × (wait.left ≤ 15)) }
    {
        self.cells.wait(key.number() as usize)
    }
}
