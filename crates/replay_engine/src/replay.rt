//! A build that runs again as it is told.

ghost use Rattle.std.specs.Prelude.{◌≡◌, ◌↔◌, ◌⊎◌, All, ◌≤◌, ◌<◌, ◌+◌, ◌^◌, true, false, OnOk, OnErr, IsErrOf, IfOk, length};
ghost use Rattle.circuit.specs.declared.Pos.{Pos};
ghost use Rattle.circuit.specs.Circuit.{later, view, start, Clicks, IsDue};
ghost use Rattle.circuit.specs.Taken.{Takes};
ghost use Rattle.power_rules.specs.World.{world_circuit};

use crate::events::{Unlawful, begin, fire_at, is_quiet, take_click, view_into};
use crate::stored::stored_cells;
use crate::things::Things;
use crate::wires::new_waves;
use build::{Build, ClickRefusal, Marks, OutPlace};
use cell_counts::Cells;
use circuit::{Click, Pos};
use rp_text::NoMemory;
use std::alloc::Global;
use std::marker::Model;
use wire_net::Waves;

/// A build that runs again: what fires in a tick, and in which order, is told from outside, and
/// each firing is looked at. No call looks for what is due.
#[derive(Drop)]
pub struct Replay {
    things: Things,
    places: Vec<OutPlace>,
    cells: Cells,
    powers: Vec<u8>,
    waves: Waves,
    // When each thing fired last, 0 where it never has.
    latest: Vec<u64>,
}

impl Model for Replay {
    ghost use Rattle.replay_engine.specs.Running.{Running, seen_as, IsRunning};

    ghost Value = { Running };

    ghost view = { λ r. seen_as r.things r.cells.time r.cells.cells r.latest.items };

    ghost invariant = { λ r. IsRunning r.things r.places.items r.cells r.powers.items r.waves.feeders r.latest.items };
}

impl Replay {
    ghost use Rattle.replay_engine.specs.Running.{state_in, HasFired, FiresOne, IsUnlawful};

    /// The build as it starts: what it stores, after all have attended once. It takes the memory
    /// of the whole run, a copy of the build with it. A mark where no wire stands counts for nothing.
    pub fn start(alloc: Global, build: &Build, marks: &Marks) -> Result<Replay, NoMemory>
        ensures plan { IfOk result (λ replay. replay.plan ≡ build.now) }
        ensures marks { IfOk result (λ replay. replay.marks ≡ marks.now) }
        ensures start { IfOk result (λ replay. state_in replay ≡ start (world_circuit build.now marks.now)) }
    {
        let things = Things::new(alloc, build, marks)?;
        let places = things.outputs(alloc)?;
        let mut cells = Cells::new(alloc, stored_cells(alloc, &things)?)?;
        let mut powers = vec![in alloc; 0u8; things.count()]?;
        begin(&things, &mut powers, &mut cells);
        let waves = new_waves(alloc, &things, &cells)?;
        let latest = vec![in alloc; 0u64; things.count()]?;
        Ok(Replay {
            things,
            places,
            cells,
            powers,
            waves,
            latest,
        })
    }

    /// One click. It is refused where no component of the place takes it, and a weighted plate
    /// takes weights of 1 to 15 alone.
    pub fn click(&mut self, pos: Pos, click: Click) -> Result<(), ClickRefusal>
        ensures taken { OnOk result (Clicks (world_circuit self.old.plan self.old.marks) pos click (state_in self.old) (state_in self.new)) }
        ensures refused { OnErr result (Takes (world_circuit self.old.plan self.old.marks) pos click → ⊥) }
        ensures none { ((key : Pos) → IsDue (world_circuit self.old.plan self.old.marks) (state_in self.old) key → ⊥) →
            (key : Pos) → IsDue (world_circuit self.old.plan self.old.marks) (state_in self.new) key → ⊥ }
        ensures same { OnErr result (self.new ≡ self.old) }
        ensures plan { self.new.plan ≡ self.old.plan }
        ensures marks { self.new.marks ≡ self.old.marks }
        ensures time { self.new.time ≡ self.old.time }
    {
        take_click(
            &self.things,
            &mut self.cells,
            &mut self.powers,
            &mut self.waves,
            pos,
            click,
        )
    }

    /// A tick begins: the time rises by one, and nothing has fired yet.
    pub fn advance(&mut self)
        requires none { (key : Pos) → IsDue (world_circuit self.old.plan self.old.marks) (state_in self.old) key → ⊥ }
        requires early { self.old.time < 2 ^ 62 }
        ensures later { state_in self.new ≡ later (state_in self.old) }
        ensures fresh { (key : Pos) → HasFired self.new key → ⊥ }
        ensures plan { self.new.plan ≡ self.old.plan }
        ensures marks { self.new.marks ≡ self.old.marks }
        ensures time { self.new.time ≡ self.old.time + 1 }
    {
        self.cells.advance();
    }

    /// A place fires in this tick. It is refused, and nothing changes, where it has fired in it, is
    /// not due, or something that is due has a lesser priority; the first of these is told.
    pub fn fire(&mut self, pos: Pos) -> Result<(), Unlawful>
        requires { 0 < self.old.time }
        ensures fired { OnOk result (FiresOne (world_circuit self.old.plan self.old.marks) (state_in self.old) (state_in self.new) pos) }
        ensures told { OnOk result ((key : Pos) → HasFired self.new key ↔ (HasFired self.old key ⊎ (key ≡ pos))) }
        ensures refused { (why : Unlawful) → IsErrOf result why → IsUnlawful (world_circuit self.old.plan self.old.marks) (state_in self.old) (HasFired self.old pos) pos why }
        ensures same { OnErr result (self.new ≡ self.old) }
        ensures plan { self.new.plan ≡ self.old.plan }
        ensures marks { self.new.marks ≡ self.old.marks }
        ensures time { self.new.time ≡ self.old.time }
    {
        fire_at(
            &self.things,
            &mut self.cells,
            &mut self.powers,
            &mut self.waves,
            &mut self.latest,
            pos,
        )
    }

    /// Whether all that was due in this tick has fired.
    pub fn is_done(&self) -> bool
        ensures done { result ≡ true → (key : Pos) → IsDue (world_circuit self.now.plan self.now.marks) (state_in self.now) key → ⊥ }
        ensures left { result ≡ false → (key : Pos) × IsDue (world_circuit self.now.plan self.now.marks) (state_in self.now) key }
    {
        is_quiet(&self.things, &self.cells)
    }

    /// The number of ticks since the start.
    pub fn time(&self) -> u64
        ensures { result ≡ self.now.time }
    {
        self.cells.now()
    }

    /// The number of outputs.
    pub fn output_count(&self) -> usize
        ensures { result ≡ length (world_circuit self.now.plan self.now.marks).shown }
    {
        self.places.len()
    }

    /// What the outputs show, in order of places: 0 or 1, and of a wire its power.
    pub fn view(&self, into: &mut [u8])
        requires { length into.old ≡ length (world_circuit self.now.plan self.now.marks).shown }
        ensures values { into.new ≡ view (world_circuit self.now.plan self.now.marks) (state_in self.now) }
        ensures small { All (λ value. value ≤ 15) into.new }
    {
        view_into(&self.things, &self.cells, &self.powers, &self.places, into);
    }
}
