//! A build that runs.

ghost use Rattle.std.specs.Prelude.{◌≡◌, All, ◌≤◌, ◌<◌, ◌+◌, ◌^◌, List, OnOk, OnErr, IfOk, length};
ghost use Rattle.circuit.specs.declared.Pos.{Pos};
ghost use Rattle.circuit.specs.Circuit.{view, start, Clicks, Ticks};
ghost use Rattle.circuit.specs.Taken.{Takes};
ghost use Rattle.power_rules.specs.World.{world_circuit};

use crate::bases::level_waves;
use crate::events::{begin, fire_due, take_click};
use crate::screen::Screen;
use crate::stored::stored_cells;
use crate::valued::ValuedCells;
use build::{Build, ClickRefusal, Marks};
use circuit::{Click, Pos};
use rp_text::NoMemory;
use std::alloc::Global;
use std::marker::Model;
use wire_net::Waves;
use wiring::{Things, Wiring};

/// A build that runs.
#[derive(Drop)]
pub struct World {
    things: Things,
    wiring: Wiring,
    cells: ValuedCells,
    bases: Vec<u8>,
    levels: Vec<u8>,
    waves: Waves,
    screen: Screen,
}

impl Model for World {
    ghost use Rattle.world_engine.specs.Running.{Running, seen_as};
    ghost use Rattle.world_engine.specs.Levels.{IsRunning};

    ghost Value = { Running };

    ghost view = { λ w. seen_as w.things w.cells.time w.cells.cells };

    ghost invariant = { λ w. IsRunning w.things w.wiring w.screen w.cells w.bases.items w.levels.items w.waves.feeders };
}

impl World {
    ghost use Rattle.world_engine.specs.Running.{state_in};

    /// The build as it starts: what it stores, after all have attended once. It takes the memory
    /// of the whole run, a copy of the build with it. A mark where no wire stands counts for nothing.
    pub fn start(alloc: Global, build: &Build, marks: &Marks) -> Result<World, NoMemory>
        ensures plan { IfOk result (λ world. world.plan ≡ build.now) }
        ensures marks { IfOk result (λ world. world.marks ≡ marks.now) }
        ensures start { IfOk result (λ world. state_in world ≡ start (world_circuit build.now marks.now)) }
    {
        let things = Things::new(alloc, build, marks)?;
        let mut cells = ValuedCells::new(alloc, stored_cells(alloc, &things)?)?;
        let wiring = Wiring::new(alloc, &things)?;
        let mut bases = vec![in alloc; 0u8; things.count()]?;
        let mut levels = vec![in alloc; 0u8; things.count()]?;
        begin(&things, &wiring, &mut bases, &mut levels, &mut cells);
        let waves = level_waves(alloc, &things, &wiring, &cells, &bases)?;
        let screen = Screen::new(alloc, &things, &levels, &cells)?;
        Ok(World {
            things,
            wiring,
            cells,
            bases,
            levels,
            waves,
            screen,
        })
    }

    /// One click. It is refused where no component of the place takes it, and a weighted plate
    /// takes weights of 1 to 15 alone.
    pub fn click(&mut self, pos: Pos, click: Click) -> Result<(), ClickRefusal>
        ensures taken { OnOk result (Clicks (world_circuit self.old.plan self.old.marks) pos click (state_in self.old) (state_in self.new)) }
        ensures refused { OnErr result (Takes (world_circuit self.old.plan self.old.marks) pos click → ⊥) }
        ensures same { OnErr result (self.new ≡ self.old) }
        ensures plan { self.new.plan ≡ self.old.plan }
        ensures marks { self.new.marks ≡ self.old.marks }
        ensures time { self.new.time ≡ self.old.time }
    {
        take_click(
            &self.things,
            &self.wiring,
            &mut self.cells,
            &mut self.bases,
            &mut self.levels,
            &mut self.waves,
            &mut self.screen,
            pos,
            click,
        )
    }

    /// One tick: the time rises by one, and what is due then fires, one by one, by rising priority.
    pub fn tick(&mut self)
        requires { self.old.time < 2 ^ 62 }
        ensures plan { self.new.plan ≡ self.old.plan }
        ensures marks { self.new.marks ≡ self.old.marks }
        ensures time { self.new.time ≡ self.old.time + 1 }
        ensures ticked { (fires : List Pos) × Ticks (world_circuit self.old.plan self.old.marks) fires (state_in self.old) (state_in self.new) }
    {
        self.cells.advance();
        fire_due(
            &self.things,
            &self.wiring,
            &mut self.cells,
            &mut self.bases,
            &mut self.levels,
            &mut self.waves,
            &mut self.screen,
        );
    }

    /// The number of ticks since the start.
    pub fn time(&self) -> u64
        ensures { result ≡ self.now.time }
    {
        self.cells.now()
    }

    /// The number of outputs.
    pub fn output_count(&self) -> usize
        ensures { result ≡ length (world_circuit self.now.plan self.now.marks).shown }
    {
        self.screen.len()
    }

    /// What the outputs show, in order of places: 0 or 1, and of a wire its power.
    pub fn view(&self, into: &mut [u8])
        requires { length into.old ≡ length (world_circuit self.now.plan self.now.marks).shown }
        ensures values { into.new ≡ view (world_circuit self.now.plan self.now.marks) (state_in self.now) }
        ensures small { All (λ value. value ≤ 15) into.new }
    {
        into.copy_from_slice(self.screen.shown());
    }
}
