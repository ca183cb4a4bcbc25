ghost use Rattle.std.specs.Prelude.{◌≡◌, ◌≤◌, ◌<◌, None, length, drop, IfOk, if◌then◌else◌};
ghost use Rattle.rp_io.specs.Causes.{next_count};
ghost use Rattle.rp_io.specs.Reads.{is_fault_answer};

use crate::whole::CHUNK;
use crate::{Inputs, ReadFailed};
use std::io::{ErrorKind, Read, Seek, SeekFrom};
use std::{fs, io};

/// A file that is being read, and the place that the next read begins at.
#[derive(Drop)]
struct Reading<F: Drop> {
    name: String,
    file: F,
    at: u64,
}

/// The machine's files, by their paths. It tells no content and no names.
///
/// A file is opened at its first byte and read on as long as it is asked for from where the last
/// read ended, so what can be read but once, as a pipe, is read whole. A read from another place,
/// or of another name, opens the file anew. Each error is a fault but want of memory, which is
/// `NoMemory`. A call gives up to 65,536 bytes.
#[derive(Drop)]
pub struct FileInputs<R: fs::Files + AllocGlobal + Drop> {
    rt: R,
    /// A reader says nothing of the bytes behind those it read, so it has a buffer of its own.
    buffer: Vec<u8>,
    reading: Option<Reading<R::File>>,
    /// The number of calls that failed.
    pub faults: u64,
}

impl<R: fs::Files + AllocGlobal + Drop> FileInputs<R> {
    /// A source over the runtime that `main` is given. It takes its memory at the first read.
    pub fn new(rt: R) -> Self
        ensures { result.faults ≡ 0 }
    {
        let buffer = Vec::new(rt.alloc());
        FileInputs {
            rt,
            buffer,
            reading: None,
            faults: 0,
        }
    }

    /// Reads up to so many bytes into the front of the buffer.
    fn read_own(&mut self, name: &str, at: u64, most: usize) -> io::Result<usize>
        ensures count { IfOk result (λ n. n ≤ length self.new.buffer.items) }
        ensures faults { self.new.faults ≡ self.old.faults }
    {
        self.buffer.resize(CHUNK, 0)?;
        let mut reading = match self.reading.take() {
            Some(reading) if reading.at == at && reading.name.as_str() == name => reading,
            _ => self.open(name, at)?,
        };
        let wanted = most.min(CHUNK);
        let count = reading.file.read(&mut self.buffer[..wanted])?;
        reading.at = at.saturating_add(count as u64);
        self.reading = Some(reading);
        Ok(count)
    }

    /// Opens a file to be read from a place on.
    fn open(&self, name: &str, at: u64) -> io::Result<Reading<R::File>> {
        let mut file = fs::open(&self.rt, name)?;
        if at > 0 {
            file.seek(SeekFrom::Start(at))?;
        }
        Ok(Reading {
            name: String::from_str(self.rt.alloc(), name)?,
            file,
            at,
        })
    }
}

/// Puts the first bytes of one buffer over those of another, as many as fit.
fn copy_front(own: &[u8], count: usize, into: &mut [u8]) -> usize
    requires { count ≤ length own.now }
    ensures bound { result ≤ length into.old }
    ensures rest { drop result into.new ≡ drop result into.old }
{
    let count = count.min(into.len());
    into[..count].copy_from_slice(&own[..count]);
    count
}

impl<R: fs::Files + AllocGlobal + Drop> Inputs for FileInputs<R> {
    ghost file = { λ s name. None };

    ghost faults = { λ s. s.faults };

    ghost asked = { λ s name. None };

    fn read_at(&mut self, name: &str, at: u64, into: &mut [u8]) -> Result<usize, ReadFailed>
        requires room { 0 < length into.old }
        requires place { at ≤ 268435456 }
        ensures bound { IfOk result (λ n. n ≤ length into.old) }
        ensures rest { IfOk result (λ n. drop n into.new ≡ drop n into.old) }
        ensures later { self.old.faults ≤ self.new.faults }
        ensures faults { self.new.faults ≡ (if is_fault_answer result then next_count self.old.faults else self.old.faults) }
    {
        match self.read_own(name, at, into.len()) {
            Ok(count) => Ok(copy_front(&self.buffer, count, into)),
            Err(error) => {
                if error.kind() == ErrorKind::OutOfMemory {
                    return Err(ReadFailed::NoMemory);
                }
                self.faults = self.faults.saturating_add(1);
                Err(ReadFailed::Fault)
            }
        }
    }
}
