//! Ticks that fall due: one contract for a queue of them, and two queues that keep it.
#![tactic(auto)]

ghost use Rattle.std.specs.Prelude.{◌≡◌, ℕ, ◌+◌, ◌<◌, ◌≤◌, ◌^◌, List, OnOk, OnErr, IfOk, MatchOption};
ghost use Rattle.tick_queue.specs.declared.Tick.{Tick};
ghost use Rattle.tick_queue.specs.Ticks.{put_in, first_at, without_first_at, NoneDueAt, AllInTime, IsInOrder};

use rp_text::NoMemory;
use std::alloc::Global;

mod list_queue;
mod ring_queue;
mod slot;

pub use list_queue::ListQueue;
pub use ring_queue::RingQueue;

/// Something that happens at the time `due`, for the thing that `key` names.
/// Of the ticks of one time those with the least priority number come first.
#[derive(Clone, Copy, Debug, PartialEq, Eq)]
pub struct Tick<K> {
    pub due: u64,
    pub priority: u8,
    pub key: K,
}

/// A clock and the ticks that are still to come: by due time, then by priority (0 to 3), then in the order of adding.
/// A tick is due at most 15 after the clock's time, and none is due before it.
pub trait Queue<K: Copy + Eq> {
    ghost ticks: { Self → List (Tick K) };

    ghost time: { Self → ℕ };

    // how many more ticks find room
    ghost spare: { Self → ℕ };

    /// Makes room for `more` ticks beside those in the queue.
    fn reserve(&mut self, more: usize) -> Result<(), NoMemory>
        ensures ok { OnOk result (more ≤ spare self.new) }
        ensures full { OnErr result (spare self.old < more) }
        ensures err { OnErr result (spare self.new ≡ spare self.old) }
        ensures grows { spare self.old ≤ spare self.new }
        ensures same_ticks { ticks self.new ≡ ticks self.old }
        ensures same_time { time self.new ≡ time self.old };

    /// The time.
    fn now(&self) -> u64
        ensures { result ≡ time self.now };

    /// Goes to the next time.
    fn advance(&mut self)
        requires none_due { NoneDueAt (time self.old) (ticks self.old) }
        requires early { time self.old < 2 ^ 63 }
        ensures next_time { time self.new ≡ time self.old + 1 }
        ensures same_ticks { ticks self.new ≡ ticks self.old }
        ensures same_spare { spare self.new ≡ spare self.old };

    /// Adds a tick within the room that was reserved. It takes no memory.
    fn add(&mut self, tick: Tick<K>)
        requires room { 0 < spare self.old }
        requires later { time self.old < tick.due }
        requires soon { tick.due ≤ time self.old + 15 }
        requires priority { tick.priority ≤ 3 }
        ensures put { ticks self.new ≡ put_in tick (ticks self.old) }
        ensures room_used { spare self.new + 1 ≡ spare self.old }
        ensures same_time { time self.new ≡ time self.old };

    /// Takes out the first tick that is due now and has this priority, and gives its key.
    fn take(&mut self, priority: u8) -> Option<K>
        requires { priority ≤ 3 }
        ensures first { result ≡ first_at (time self.old) priority (ticks self.old) }
        ensures rest { ticks self.new ≡ without_first_at (time self.old) priority (ticks self.old) }
        ensures room { MatchOption result (spare self.new ≡ spare self.old) (λ _. spare self.new ≡ spare self.old + 1) }
        ensures same_time { time self.new ≡ time self.old };

    /// The ticks, in order.
    fn list(&self) -> Result<Vec<Tick<K>>, NoMemory>
        ensures { IfOk result (λ all. all.items ≡ ticks self.now) };

    ghost in_time: { (s : Self) → AllInTime (time s) (ticks s) };

    ghost in_order: { (s : Self) → IsInOrder (ticks s) };
}

#[cfg(test)]
mod tests;
