// A queue that keeps its ticks in a ring of slots.
ghost use Rattle.std.specs.Prelude.{◌≡◌, ℕ, ◌+◌, ◌*◌, ◌%◌, ◌<◌, ◌≤◌, ◌^◌, [], ◌∷◌, ◌++◌, List, length, slice_index_or, slice_set, map, OnOk, IfOk};
ghost use Rattle.std.specs.Option.{option_to_list};
ghost use Rattle.tick_queue.specs.Ticks.{put_in};
ghost use Rattle.tick_queue.specs.Ring.{ring_ticks};
ghost use Rattle.tick_queue.specs.RingLaws.{ring_in_time, ring_in_order};

use crate::slot::{Nodes, Slot};
use crate::{Queue, Tick};
use rp_text::NoMemory;
use std::alloc::Global;
use std::array;
use std::collections::LinkedList;

// One more than the most nodes of a ring.
const LIMIT: usize = 0x8000_0000_0000_0000;

/// A queue that keeps its ticks in a ring of slots: one for each of 16 times and each of 4 priorities.
/// Adding and taking move one node between a slot and the spare nodes, in constant time.
#[derive(Drop)]
pub struct RingQueue<K> {
    slots: [Slot<K>; 64],
    spare: Nodes<K>,
    nodes: usize,
    time: u64,
    ghost all_nodes: { length (ring_ticks time slots) + length spare ≡ nodes },
    ghost few: { nodes < 2 ^ 63 },
    ghost early: { time ≤ 2 ^ 63 },
}

impl<K: Copy + Eq> RingQueue<K> {
    /// No tick, at the time 0.
    pub fn new(alloc: Global) -> Self
        ensures no_tick { ⟦<RingQueue<K> as Queue<K>>⟧.ticks result ≡ [] }
        ensures start { ⟦<RingQueue<K> as Queue<K>>⟧.time result ≡ 0 }
    {
        RingQueue {
            slots: empty_slots(alloc),
            spare: LinkedList::new(alloc),
            nodes: 0,
            time: 0,
        }
    }
}

// Slots that hold no key.
fn empty_slots<K: Copy>(alloc: Global) -> [Slot<K>; 64]
    ensures { (i : ℕ) → slice_index_or result i [] ≡ [] }
{
    array::from_fn(
        |_: usize| -> Slot<K>
            ensures { result ≡ [] }
        { Slot::new(alloc) },
    )
}

// The slot of a due time and a priority.
fn slot_of(due: u64, priority: u8) -> usize
    requires { priority ≤ 3 }
    ensures { result ≡ (4 * due + priority) % 64 }
{
    (due % 16) as usize * 4 + priority as usize
}

// Puts the key behind the others of its slot.
fn put_at<K: Copy>(slots: &mut [Slot<K>; 64], place: usize, spare: &mut Nodes<K>, key: K)
    requires within { place < 64 }
    requires some { 0 < length spare.old }
    requires few { length (slice_index_or slots.old place []) + length spare.old < 2 ^ 63 }
    ensures full { length slots.old ≡ 64 }
    ensures keys { slots.new ≡ slice_set slots.old place (slice_index_or slots.old place [] ++ key ∷ []) }
    ensures spare { length spare.new + 1 ≡ length spare.old }
{
    slots[place].put(spare, key);
}

// Takes the first key out of a slot.
fn take_at<K: Copy>(slots: &mut [Slot<K>; 64], place: usize, spare: &mut Nodes<K>) -> Option<K>
    requires within { place < 64 }
    requires few { length (slice_index_or slots.old place []) + length spare.old < 2 ^ 63 }
    ensures full { length slots.old ≡ 64 }
    ensures keys { slice_index_or slots.old place [] ≡ option_to_list result ++ slice_index_or slots.new place [] }
    ensures others { slots.new ≡ slice_set slots.old place (slice_index_or slots.new place []) }
    ensures none { result ≡ None → slice_index_or slots.new place [] ≡ [] }
    ensures spare { length spare.new ≡ length spare.old + length (option_to_list result) }
{
    slots[place].take(spare)
}

// Appends the ticks of a due time and a priority.
fn list_at<K: Copy>(
    slots: &[Slot<K>; 64],
    due: u64,
    priority: u8,
    all: &mut Vec<Tick<K>>,
) -> Result<(), NoMemory>
    requires { priority ≤ 3 }
    ensures { OnOk result (all.new.items ≡ all.old.items ++ map (λ key. record { due = due; priority = priority; key = key }) (slice_index_or slots.now ((4 * due + priority) % 64) [])) }
{
    slots[slot_of(due, priority)].list_onto(due, priority, all)
}

// So many nodes that hold no key.
fn make_nodes<K: Copy>(alloc: Global, count: usize) -> Result<Nodes<K>, NoMemory>
    ensures { IfOk result (λ nodes. length nodes ≡ count) }
{
    let mut nodes = LinkedList::new(alloc);
    for _ in 0..count {
        nodes.push_back(None)?;
    }
    Ok(nodes)
}

impl<K: Copy + Eq> Queue<K> for RingQueue<K> {
    ghost ticks = { λ s. ring_ticks s.time s.slots };

    ghost time = { λ s. s.time };

    ghost spare = { λ s. length s.spare };

    fn reserve(&mut self, more: usize) -> Result<(), NoMemory> {
        let spare = self.spare.len();
        if more <= spare {
            return Ok(());
        }
        let added = more - spare;
        if LIMIT - self.nodes <= added {
            return Err(NoMemory);
        }
        let mut fresh = make_nodes(*self.spare.allocator(), added)?;
        self.spare.append(&mut fresh).unwrap();
        self.nodes += added;
        Ok(())
    }

    fn now(&self) -> u64 {
        self.time
    }

    fn advance(&mut self) {
        self.time += 1;
    }

    fn add(&mut self, tick: Tick<K>)
        requires room { 0 < ⟦<RingQueue<K> as Queue<K>>⟧.spare self.old }
        requires later { ⟦<RingQueue<K> as Queue<K>>⟧.time self.old < tick.due }
        requires soon { tick.due ≤ ⟦<RingQueue<K> as Queue<K>>⟧.time self.old + 15 }
        requires priority { tick.priority ≤ 3 }
        ensures put { ⟦<RingQueue<K> as Queue<K>>⟧.ticks self.new ≡ put_in tick (⟦<RingQueue<K> as Queue<K>>⟧.ticks self.old) }
        ensures room_used { ⟦<RingQueue<K> as Queue<K>>⟧.spare self.new + 1 ≡ ⟦<RingQueue<K> as Queue<K>>⟧.spare self.old }
        ensures same_time { ⟦<RingQueue<K> as Queue<K>>⟧.time self.new ≡ ⟦<RingQueue<K> as Queue<K>>⟧.time self.old }
    {
        let place = slot_of(tick.due, tick.priority);
        put_at(&mut self.slots, place, &mut self.spare, tick.key);
    }

    fn take(&mut self, priority: u8) -> Option<K> {
        let place = slot_of(self.time, priority);
        take_at(&mut self.slots, place, &mut self.spare)
    }

    fn list(&self) -> Result<Vec<Tick<K>>, NoMemory> {
        let mut all = Vec::new(*self.spare.allocator());
        for place in 0..64u8 {
            let due = self.time + (place / 4) as u64;
            let priority = place % 4;
            list_at(&self.slots, due, priority, &mut all)?;
        }
        Ok(all)
    }

    ghost in_time = { λ s. ring_in_time s.time s.slots };

    ghost in_order = { λ s. ring_in_order s.time s.slots };
}
