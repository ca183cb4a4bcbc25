//! Pending ticks, and at which places they are.

ghost use Rattle.std.specs.Prelude.{◌≡◌, [], ◌∷◌, ◌++◌, OnOk, OnErr, IfOk};
ghost use Rattle.build.specs.Place.{same_place};
ghost use Rattle.build.specs.Plan.{is_pending};
ghost use Rattle.build.specs.Edits.{pending_elsewhere};

use crate::{Marks, Pending};
use circuit::Pos;
use rp_text::NoMemory;
use std::alloc::Global;
use std::marker::Model;

// Pending ticks in the order in which they were added.
#[derive(Drop)]
pub struct PendingTicks {
    list: Vec<Pending>,
    // Each place at which a tick is pending, and perhaps some at which one was.
    places: Marks,
}

impl Model for PendingTicks {
    ghost use Rattle.std.specs.Prelude.{List};
    ghost use Rattle.build.specs.declared.Pending.{Pending};
    ghost use Rattle.build.specs.Noted.{AreNoted};

    ghost Value = { List Pending };

    ghost view = { λ a. a.list.items };

    ghost invariant = { λ a. AreNoted a.list.items a.places };
}

// Whether a tick is pending at a place.
fn is_at(tick: &Pending, pos: Pos) -> bool
    ensures { result ≡ same_place tick.now.pos pos }
{
    tick.pos == pos
}

// Whether some tick is pending at a place.
fn is_pending(ticks: &[Pending], pos: Pos) -> bool
    ensures { result ≡ is_pending ticks.now pos }
{
    ticks.iter().any(|tick| is_at(tick, pos))
}

// Takes out the tick that is pending at a place.
fn forget(ticks: &mut Vec<Pending>, pos: Pos)
    ensures { ticks.new.items ≡ pending_elsewhere pos ticks.old.items }
{
    ticks.retain(|tick| !is_at(tick, pos));
}

impl PendingTicks {
    // No tick is pending.
    pub fn new(alloc: Global) -> PendingTicks
        ensures { result ≡ [] }
    {
        PendingTicks {
            list: Vec::new(alloc),
            places: Marks::new(alloc),
        }
    }

    // Equal ticks.
    pub fn copy(&self) -> Result<PendingTicks, NoMemory>
        ensures { IfOk result (λ copy. copy ≡ self.now) }
    {
        let list = Vec::from_slice(*self.list.allocator(), &self.list)?;
        let places = self.places.copy()?;
        Ok(PendingTicks { list, places })
    }

    pub fn as_slice(&self) -> &[Pending]
        ensures { result.now ≡ self.now }
    {
        &self.list
    }

    // Whether some tick is pending at a place. It looks through the list only where one is or was.
    pub fn contains(&self, pos: Pos) -> bool
        ensures { result ≡ is_pending self.now pos }
    {
        if self.places.contains(pos) {
            is_pending(&self.list, pos)
        } else {
            false
        }
    }

    // Adds a tick behind the others.
    pub fn push(&mut self, tick: Pending) -> Result<(), NoMemory>
        ensures ok { OnOk result (self.new ≡ self.old ++ tick ∷ []) }
        ensures err { OnErr result (self.new ≡ self.old) }
    {
        self.places.add(tick.pos)?;
        self.list.push(tick)?;
        Ok(())
    }

    // Takes out the tick that is pending at a place.
    pub fn forget(&mut self, pos: Pos)
        ensures { self.new ≡ pending_elsewhere pos self.old }
    {
        forget(&mut self.list, pos);
    }
}
