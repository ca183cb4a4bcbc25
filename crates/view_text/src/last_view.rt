//! The line of the last view.

ghost use Rattle.std.specs.Prelude.{◌≡◌, ◌+◌, ◌*◌, ◌^◌, ◌<◌, ◌≤◌, ◌++◌, All, length, take, drop, set, IfOk, IfSome, OnOk, OnErr};
ghost use Rattle.rp_io.specs.Causes.{HasCause, Wrote, WrotePrefix};
ghost use Rattle.report.specs.ViewLine.{view_line};
ghost use Rattle.view_text.specs.Parts.{head_part};

use crate::head::put_head;
use crate::values::{HEAD_ROOM, freshen, mend};
use report::Cause;
use rp_io::{Sink, WriteFault, put_all};
use rp_text::NoMemory;
use std::alloc::Global;
use std::marker::Model;

// How many values are compared at once.
const PART: usize = 64;

/// The values of the last view, with the text of its line. A value that changes is put into the
/// text where it stands; where its text is longer or shorter, the line is made anew before it is
/// next written.
#[derive(Drop)]
pub struct LastView {
    // Room for the head, and the values behind it.
    line: Vec<u8>,
    // The place behind each value's text.
    ends: Vec<u32>,
    values: Vec<u8>,
    // Whether the line has other values.
    is_stale: bool,
}

impl Model for LastView {
    ghost use Rattle.std.specs.Prelude.{ℕ, List, vec_capacity};
    ghost use Rattle.view_text.specs.Parts.{IsKept};

    ghost Value = { List ℕ };

    ghost view = { λ v. v.values.items };

    ghost invariant = { λ v. IsKept v.line.items (vec_capacity v.line) v.ends.items v.values.items v.is_stale };
}

impl LastView {
    /// A view of these values. It takes all memory that its line ever needs.
    pub fn new(alloc: Global, values: &[u8]) -> Result<Self, NoMemory>
        requires { All (λ value. value ≤ 15) values.now }
        ensures { IfOk result (λ view. view ≡ values.now) }
    {
        let Some(room) = room_for(values.len()) else {
            return Err(NoMemory);
        };
        let mut line = Vec::with_capacity(alloc, room)?;
        line.extend_from_slice(&[b' '; HEAD_ROOM])?;
        Ok(LastView {
            line,
            ends: vec![in alloc; 0u32; values.len()]?,
            values: Vec::from_slice(alloc, values)?,
            is_stale: true,
        })
    }

    /// What each output shows.
    pub fn values(&self) -> &[u8]
        ensures { result.now ≡ self.now }
    {
        &self.values
    }

    /// What each output shows, without the line.
    pub fn into_values(self) -> Vec<u8>
        ensures { result.items ≡ self }
    {
        self.values
    }

    /// Puts the value of one output.
    pub fn set(&mut self, index: usize, value: u8)
        requires index { index < length self.old }
        requires value { value ≤ 15 }
        ensures { self.new ≡ set self.old index value }
    {
        if !self.is_stale {
            self.is_stale = !mend(&mut self.line, &self.ends, &self.values, index, value);
        }
        self.values[index] = value;
    }

    /// Puts the values of all outputs. Where one is as it was, its text isn't touched.
    pub fn set_all(&mut self, values: &[u8])
        requires whole { length values.now ≡ length self.old }
        requires small { All (λ value. value ≤ 15) values.now }
        ensures { self.new ≡ values.now }
    {
        if self.values.as_slice() != values {
            for part in 0..values.len() / PART + 1 {
                let from = part * PART;
                self.set_part(values, from, values.len().min(from + PART));
            }
        }
    }

    // Puts the values of the outputs from an index to an end, where those before stand already.
    fn set_part(&mut self, values: &[u8], from: usize, end: usize)
        requires whole { length values.now ≡ length self.old }
        requires small { All (λ value. value ≤ 15) values.now }
        requires order { from ≤ end }
        requires inside { end ≤ length values.now }
        requires before { take from self.old ≡ take from values.now }
        ensures whole { length self.new ≡ length self.old }
        ensures before { take end self.new ≡ take end values.now }
    {
        if self.values[from..end] != values[from..end] {
            for index in from..end {
                self.change(index, values[index]);
            }
        }
    }

    // Puts the value of one output, if it has another.
    fn change(&mut self, index: usize, value: u8)
        requires index { index < length self.old }
        requires value { value ≤ 15 }
        ensures { self.new ≡ set self.old index value }
    {
        if self.values[index] != value {
            self.set(index, value);
        }
    }

    /// Writes the line of the view at a time and after a cause, in one piece. It takes no memory.
    pub fn put<O: Sink>(&mut self, out: &mut O, time: u64, cause: Cause) -> Result<(), WriteFault>
        ensures same { self.new ≡ self.old }
        ensures all { OnOk result (Wrote (O.written out.old) (O.written out.new) (view_line time cause self.old)) }
        ensures front { OnErr result (WrotePrefix (O.written out.old) (O.written out.new) (view_line time cause self.old)) }
        ensures cause { HasCause (O.faults out.old) (O.faults out.new) result }
    {
        freshen(&mut self.line, &mut self.ends, &self.values, self.is_stale);
        self.is_stale = false;
        put_line(out, &mut self.line, time, cause)
    }
}

/// Puts a head before the values, and writes both in one piece.
fn put_line<O: Sink>(
    out: &mut O,
    line: &mut [u8],
    time: u64,
    cause: Cause,
) -> Result<(), WriteFault>
    requires { 32 ≤ length line.old }
    ensures values { drop 32 line.new ≡ drop 32 line.old }
    ensures all { OnOk result (Wrote (O.written out.old) (O.written out.new) (head_part time cause ++ drop 32 line.old)) }
    ensures front { OnErr result (WrotePrefix (O.written out.old) (O.written out.new) (head_part time cause ++ drop 32 line.old)) }
    ensures cause { HasCause (O.faults out.old) (O.faults out.new) result }
{
    let begin = put_head(line, time, cause);
    put_all(out, &line[begin..])
}

/// The bytes of a line with so many values, below 2^32.
fn room_for(values: usize) -> Option<usize>
    ensures { IfSome result (λ room. (room ≡ 33 + 3 * values) × (room < 2 ^ 32)) }
{
    let room = values.checked_mul(3)?.checked_add(HEAD_ROOM + 1)?;
    if room > u32::MAX as usize {
        return None;
    }
    Some(room)
}
