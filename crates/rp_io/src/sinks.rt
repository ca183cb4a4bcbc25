ghost use Rattle.std.specs.Prelude.{◌≡◌, ◌≤◌, ◌<◌, ◌+◌, ◌-◌, ◌++◌, [], min, Some, None, Ok, IfOk, OnErr, is_err, take, length, if◌then◌else◌, vec_capacity};
ghost use Rattle.rp_io.specs.Causes.{last_count, next_count};
ghost use Rattle.rp_io.specs.Sinks.{fails, room_left};

use crate::{Calls, Failed, Sink};
use rp_text::{NoMemory, Raw};
use std::alloc::Global;
use std::io::Write;

/// A sink in memory that takes a few bytes a call and fails at listed calls.
///
/// A call fails where its number is listed or all of the room is taken. It takes no memory.
#[derive(Drop)]
pub struct MemSink {
    /// The bytes taken so far.
    pub bytes: Raw,
    /// How many bytes are taken in all.
    pub room: usize,
    /// How many bytes one call takes at most.
    pub chunk: usize,
    /// The numbers of the calls that fail.
    pub failing: Calls,
    /// The number of calls so far, which is the next call's number.
    pub calls: u64,
    /// The number of calls that failed.
    pub faults: u64,
    pub ghost fits: { room ≤ vec_capacity bytes.items },
    pub ghost takes: { 1 ≤ chunk },
}

impl MemSink {
    /// A sink without bytes. It takes the memory for all of its room.
    pub fn new(alloc: Global, room: usize, chunk: usize, failing: Calls) -> Result<Self, NoMemory>
        requires { 1 ≤ chunk }
        ensures empty { IfOk result (λ s. s.bytes.items.items ≡ []) }
        ensures given { IfOk result (λ s. (s.room ≡ room) × (s.chunk ≡ chunk) × (s.failing ≡ failing)) }
        ensures counts { IfOk result (λ s. (s.calls ≡ 0) × (s.faults ≡ 0)) }
    {
        let bytes = Raw {
            items: Vec::with_capacity(alloc, room)?,
        };
        Ok(MemSink {
            bytes,
            room,
            chunk,
            failing,
            calls: 0,
            faults: 0,
        })
    }
}

impl Sink for MemSink {
    ghost written = { λ s. Some s.bytes.items.items };

    ghost faults = { λ s. s.faults };

    fn put(&mut self, piece: &[u8]) -> Result<usize, Failed>
        requires { 0 < length piece.now }

        ensures fails { is_err result ≡ fails self.old.failing.items.items self.old.calls self.old.room self.old.bytes.items.items }
        ensures count { IfOk result (λ n. n ≡ min (min (length piece.now) self.old.chunk) (room_left self.old.room self.old.bytes.items.items)) }
        ensures took { IfOk result (λ n. self.new.bytes.items.items ≡ self.old.bytes.items.items ++ take n piece.now) }
        ensures nothing { OnErr result (self.new.bytes.items.items ≡ self.old.bytes.items.items) }

        ensures calls { self.new.calls ≡ next_count self.old.calls }
        ensures later { self.old.faults ≤ self.new.faults }
        ensures faults { self.new.faults ≡ (if is_err result then next_count self.old.faults else self.old.faults) }
        ensures kept { (self.new.room ≡ self.old.room) × (self.new.chunk ≡ self.old.chunk) × (self.new.failing ≡ self.old.failing) }
    {
        let call = self.calls;
        self.calls = self.calls.saturating_add(1);
        let left = self.room.saturating_sub(self.bytes.items.len());
        if self.failing.items.contains(&call) || left == 0 {
            self.faults = self.faults.saturating_add(1);
            return Err(Failed);
        }
        let count = piece.len().min(self.chunk).min(left);
        match self.bytes.items.extend_from_slice(piece.split_at(count).0) {
            Ok(()) => Ok(count),
            Err(_) => unreachable!(),
        }
    }
}

/// A sink that takes every piece whole and keeps the number of bytes alone.
#[derive(Default, Drop)]
pub struct CountSink {
    /// The number of bytes taken so far.
    pub taken: u64,
}

impl CountSink {
    /// A sink that has taken nothing.
    pub fn new() -> Self
        ensures { result.taken ≡ 0 }
    {
        CountSink { taken: 0 }
    }
}

impl Sink for CountSink {
    ghost written = { λ s. None };

    ghost faults = { λ s. 0 };

    fn put(&mut self, piece: &[u8]) -> Result<usize, Failed>
        requires { 0 < length piece.now }
        ensures whole { result ≡ Ok (length piece.now) }
        ensures taken { self.new.taken ≡ min (self.old.taken + length piece.now) last_count }
    {
        self.taken = self.taken.saturating_add(piece.len() as u64);
        Ok(piece.len())
    }
}

/// A writer as a sink, such as standard output or standard error. It tells no content.
///
/// Whatever fails in the writer is a fault, want of memory too, and so is a call that takes nothing.
#[derive(Drop)]
pub struct StdSink<W: Write + Drop> {
    writer: W,
    /// The number of calls that failed.
    pub faults: u64,
}

impl<W: Write + Drop> StdSink<W> {
    /// A sink over this writer.
    pub fn new(writer: W) -> Self
        ensures { result.faults ≡ 0 }
    {
        StdSink { writer, faults: 0 }
    }
}

impl<W: Write + Drop> Sink for StdSink<W> {
    ghost written = { λ s. None };

    ghost faults = { λ s. s.faults };

    fn put(&mut self, piece: &[u8]) -> Result<usize, Failed>
        requires { 0 < length piece.now }
        ensures some { IfOk result (λ n. 0 < n) }
        ensures bound { IfOk result (λ n. n ≤ length piece.now) }
        ensures later { self.old.faults ≤ self.new.faults }
        ensures faults { self.new.faults ≡ (if is_err result then next_count self.old.faults else self.old.faults) }
    {
        match self.writer.write(piece) {
            Ok(count) if count > 0 => Ok(count),
            _ => {
                self.faults = self.faults.saturating_add(1);
                Err(Failed)
            }
        }
    }
}
