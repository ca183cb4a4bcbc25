// A queue that keeps its ticks in order in one vector.
ghost use Rattle.std.specs.Prelude.{◌≡◌, ℕ, ◌+◌, ◌-◌, ◌<◌, ◌≤◌, [], List, length, position, vec_len, vec_capacity, MatchOption};
ghost use Rattle.std.specs.List.{prefix_len};
ghost use Rattle.tick_queue.specs.Ticks.{put_in, first_at, without_first_at, is_at, is_up_to, AllInTime, AllInTime-prop, IsInOrder, IsInOrder-prop};

use crate::{Queue, Tick};
use rp_text::NoMemory;
use std::alloc::Global;

/// A queue that keeps its ticks in order in one vector.
/// Adding and taking move the ticks behind the place.
#[derive(Drop)]
pub struct ListQueue<K> {
    ticks: Vec<Tick<K>>,
    time: u64,
    ghost in_time: { AllInTime time ticks.items } by { AllInTime-prop time ticks.items },
    ghost in_order: { IsInOrder ticks.items } by { IsInOrder-prop ticks.items },
}

impl<K: Copy + Eq> ListQueue<K> {
    /// No tick, at the time 0.
    pub fn new(alloc: Global) -> Self
        ensures no_tick { ⟦<ListQueue<K> as Queue<K>>⟧.ticks result ≡ [] }
        ensures start { ⟦<ListQueue<K> as Queue<K>>⟧.time result ≡ 0 }
    {
        ListQueue {
            ticks: Vec::new(alloc),
            time: 0,
        }
    }
}

// How many ticks come before one with this due time and this priority.
fn count_before<K: Copy>(ticks: &[Tick<K>], due: u64, priority: u8) -> usize
    ensures { result ≡ prefix_len (is_up_to due priority) ticks.now }
{
    ticks
        .iter()
        .take_while(|tick| tick.due < due || (tick.due == due && tick.priority <= priority))
        .count()
}

// Where the first tick with this due time and this priority stands.
fn place_of<K: Copy>(ticks: &[Tick<K>], due: u64, priority: u8) -> Option<usize>
    ensures { result ≡ position (is_at due priority) ticks.now }
{
    ticks
        .iter()
        .position(|tick| tick.due == due && tick.priority == priority)
}

// Puts the tick in at its place, within the capacity.
fn put<K: Copy>(ticks: &mut Vec<Tick<K>>, tick: Tick<K>)
    requires { vec_len ticks.old < vec_capacity ticks.old }
    ensures put { ticks.new.items ≡ put_in tick ticks.old.items }
    ensures len { vec_len ticks.new ≡ vec_len ticks.old + 1 }
    ensures capacity { vec_capacity ticks.new ≡ vec_capacity ticks.old }
{
    let place = count_before(ticks, tick.due, tick.priority);
    ticks.insert(place, tick).unwrap();
}

// Takes out the first tick with this due time and this priority.
fn take_first<K: Copy>(ticks: &mut Vec<Tick<K>>, due: u64, priority: u8) -> Option<K>
    ensures first { result ≡ first_at due priority ticks.old.items }
    ensures rest { ticks.new.items ≡ without_first_at due priority ticks.old.items }
    ensures len { MatchOption result (vec_len ticks.new ≡ vec_len ticks.old) (λ _. vec_len ticks.new + 1 ≡ vec_len ticks.old) }
    ensures capacity { vec_capacity ticks.new ≡ vec_capacity ticks.old }
{
    match place_of(ticks, due, priority) {
        Some(place) => Some(ticks.remove(place).key),
        None => None,
    }
}

impl<K: Copy + Eq> Queue<K> for ListQueue<K> {
    ghost ticks = { λ s. s.ticks.items };

    ghost time = { λ s. s.time };

    ghost spare = { λ s. vec_capacity s.ticks - vec_len s.ticks };

    fn reserve(&mut self, more: usize) -> Result<(), NoMemory> {
        self.ticks.reserve(more)?;
        Ok(())
    }

    fn now(&self) -> u64 {
        self.time
    }

    fn advance(&mut self) {
        self.time += 1;
    }

    fn add(&mut self, tick: Tick<K>)
        requires room { 0 < ⟦<ListQueue<K> as Queue<K>>⟧.spare self.old }
        requires later { ⟦<ListQueue<K> as Queue<K>>⟧.time self.old < tick.due }
        requires soon { tick.due ≤ ⟦<ListQueue<K> as Queue<K>>⟧.time self.old + 15 }
        requires priority { tick.priority ≤ 3 }
        ensures put { ⟦<ListQueue<K> as Queue<K>>⟧.ticks self.new ≡ put_in tick (⟦<ListQueue<K> as Queue<K>>⟧.ticks self.old) }
        ensures room_used { ⟦<ListQueue<K> as Queue<K>>⟧.spare self.new + 1 ≡ ⟦<ListQueue<K> as Queue<K>>⟧.spare self.old }
        ensures same_time { ⟦<ListQueue<K> as Queue<K>>⟧.time self.new ≡ ⟦<ListQueue<K> as Queue<K>>⟧.time self.old }
    {
        put(&mut self.ticks, tick);
    }

    fn take(&mut self, priority: u8) -> Option<K> {
        take_first(&mut self.ticks, self.time, priority)
    }

    fn list(&self) -> Result<Vec<Tick<K>>, NoMemory> {
        Ok(Vec::from_slice(*self.ticks.allocator(), &self.ticks)?)
    }

    ghost in_time = { λ s. s.in_time };

    ghost in_order = { λ s. s.in_order };
}
