ghost use Rattle.std.specs.Prelude.{◌≡◌, ◌≤◌, ◌<◌, ◌-◌, Some, None, length, drop, IfOk, IfErr, IsOk, MatchOption, is_err, min, if◌then◌else◌};
ghost use Rattle.std.specs.Str.{bytes_eq};
ghost use Rattle.rp_io.specs.Causes.{next_count};
ghost use Rattle.rp_io.specs.Reads.{ReadsAt};
ghost use Rattle.rp_io.specs.Memory.{found, found_or_empty, told_count, is_fault};

use crate::{Inputs, ReadFailed};
use rp_text::Raw;

/// Pairs of a name and its file's bytes. Of equal names the first pair counts.
#[derive(Drop)]
pub struct Files {
    pub items: Vec<(Raw, Raw)>,
}

/// Numbers of calls, counted from 0, in any order.
#[derive(Drop)]
pub struct Calls {
    pub items: Vec<u64>,
}

/// Named files in memory, whose reads fail at listed calls.
///
/// A call answers `Fault` where its number is listed or the name is unknown, and never `NoMemory`.
#[derive(Drop)]
pub struct MemInputs {
    pub files: Files,
    /// The numbers of the calls that fail.
    pub failing: Calls,
    /// The one name whose calls are told.
    pub watch: Raw,
    /// The number of calls so far, which is the next call's number.
    pub calls: u64,
    /// The number of calls that failed.
    pub faults: u64,
    /// The number of calls on the name `watch`.
    pub watched: u64,
}

impl MemInputs {
    /// A source of these files.
    pub fn new(files: Files, failing: Calls, watch: Raw) -> Self
        ensures { result ≡ record { files = files; failing = failing; watch = watch; calls = 0; faults = 0; watched = 0 } }
    {
        MemInputs {
            files,
            failing,
            watch,
            calls: 0,
            faults: 0,
            watched: 0,
        }
    }
}

/// The bytes of the first pair of this name.
fn find_file<'a>(files: &'a [(Raw, Raw)], name: &[u8]) -> Option<&'a [u8]>
    ensures { MatchOption result (found files.now name.now ≡ None) (λ bytes. found files.now name.now ≡ Some bytes.now) }
{
    for (title, bytes) in files {
        if title.items.as_slice() == name {
            return Some(bytes.items.as_slice());
        }
    }
    None
}

/// Copies the bytes from a place on, as many as there are and fit.
fn copy_from(whole: &[u8], at: u64, into: &mut [u8]) -> usize
    requires { 0 < length into.old }
    ensures count { result ≡ min (length whole.now - at) (length into.old) }
    ensures bytes { ReadsAt (Some whole.now) at result into.new }
    ensures rest { drop result into.new ≡ drop result into.old }
{
    let start = if at < whole.len() as u64 {
        at as usize
    } else {
        whole.len()
    };
    let count = (whole.len() - start).min(into.len());
    into[..count].copy_from_slice(&whole[start..start + count]);
    count
}

impl Inputs for MemInputs {
    ghost file = { λ s name. found s.files.items.items name };

    ghost faults = { λ s. s.faults };

    ghost asked = { λ s name. told_count s.watch.items.items s.watched name };

    fn read_at(&mut self, name: &str, at: u64, into: &mut [u8]) -> Result<usize, ReadFailed>
        requires room { 0 < length into.old }
        requires place { at ≤ 268435456 }

        // Each failure is a fault: a listed call, or an unknown name.
        ensures fails { is_err result ≡ is_fault self.old.failing.items.items self.old.calls (found self.old.files.items.items name.now) }
        ensures fault { IfErr result (λ e. e ≡ ReadFailed.Fault) }

        // Else all bytes come that the file has there and that fit.
        ensures count { IfOk result (λ n. n ≡ min (length (found_or_empty self.old.files.items.items name.now) - at) (length into.old)) }
        ensures bytes { IfOk result (λ n. ReadsAt (found self.old.files.items.items name.now) at n into.new) }
        ensures rest { IfOk result (λ n. drop n into.new ≡ drop n into.old) }

        // The counts alone change.
        ensures later { self.old.faults ≤ self.new.faults }
        ensures after { self.new ≡ record self.old {
          calls = next_count self.old.calls;
          faults = (if is_err result then next_count self.old.faults else self.old.faults);
          watched = (if bytes_eq self.old.watch.items.items name.now then next_count self.old.watched else self.old.watched);
        } }
    {
        let call = self.calls;
        self.calls = self.calls.saturating_add(1);
        if self.watch.items.as_slice() == name.as_bytes() {
            self.watched = self.watched.saturating_add(1);
        }
        if self.failing.items.contains(&call) {
            self.faults = self.faults.saturating_add(1);
            return Err(ReadFailed::Fault);
        }
        match find_file(&self.files.items, name.as_bytes()) {
            Some(whole) => Ok(copy_from(whole, at, into)),
            None => {
                self.faults = self.faults.saturating_add(1);
                Err(ReadFailed::Fault)
            }
        }
    }
}

/// Named files in memory that are always read. An unknown name is an empty file.
#[derive(Drop)]
pub struct SureInputs {
    pub files: Files,
}

impl SureInputs {
    /// A source of these files.
    pub fn new(files: Files) -> Self
        ensures { result ≡ record { files = files } }
    {
        SureInputs { files }
    }
}

impl Inputs for SureInputs {
    ghost file = { λ s name. Some (found_or_empty s.files.items.items name) };

    ghost faults = { λ s. 0 };

    ghost asked = { λ s name. None };

    fn read_at(&mut self, name: &str, at: u64, into: &mut [u8]) -> Result<usize, ReadFailed>
        requires room { 0 < length into.old }
        requires place { at ≤ 268435456 }
        ensures sure { IsOk result }
        ensures count { IfOk result (λ n. n ≡ min (length (found_or_empty self.old.files.items.items name.now) - at) (length into.old)) }
        ensures bytes { IfOk result (λ n. ReadsAt (Some (found_or_empty self.old.files.items.items name.now)) at n into.new) }
        ensures rest { IfOk result (λ n. drop n into.new ≡ drop n into.old) }
        ensures same { self.new ≡ self.old }
    {
        match find_file(&self.files.items, name.as_bytes()) {
            Some(whole) => Ok(copy_from(whole, at, into)),
            None => Ok(copy_from(&[], at, into)),
        }
    }
}
