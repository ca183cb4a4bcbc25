ghost use Rattle.std.specs.Prelude.{◌≡◌, ◌<◌, ◌≤◌, length, IfOk, OnOk, OnErr, IsErrOf, is_some, ◌+◌};
ghost use Rattle.rp_io.specs.declared.whole.ReadRefusal.TheVariants.{NoMemory};
ghost use Rattle.rp_io.specs.Causes.{Rose, StaysCount, HasCause, Wrote, WrotePrefix};
ghost use Rattle.rp_io.specs.Reads.{Asks, AsksAlone, IsFile, IsLonger, ReadsAt};

use crate::{Inputs, ReadFailed, Sink};
use std::alloc::{AllocError, Global};

/// Why a file wasn't read whole.
#[derive(Clone, Copy, Debug, PartialEq, Eq)]
pub enum ReadRefusal {
    /// The source failed and counted it.
    ReadFault,
    /// The file has more bytes than the limit.
    TooLong,
    /// There was no memory for the file, or the source found none.
    NoMemory,
}

impl From<AllocError> for ReadRefusal {
    ghost from_gives = { λ _ e. e ≡ NoMemory };

    fn from(_: AllocError) -> Self {
        ReadRefusal::NoMemory
    }
}

impl From<ReadFailed> for ReadRefusal {
    ghost use Rattle.rp_io.specs.Reads.{refusal_of};

    ghost from_gives = { λ failed e. e ≡ refusal_of failed };

    fn from(failed: ReadFailed) -> Self {
        match failed {
            ReadFailed::Fault => ReadRefusal::ReadFault,
            ReadFailed::NoMemory => ReadRefusal::NoMemory,
        }
    }
}

/// A sink failed before it had taken all bytes.
#[derive(Clone, Copy, Debug, PartialEq, Eq)]
pub struct WriteFault;

/// How many bytes are asked of a source at once.
pub(crate) const CHUNK: usize = 65_536;

fn buffer(alloc: Global) -> Result<Vec<u8>, AllocError>
    ensures { IfOk result (λ v. 0 < length v.items) }
{
    vec![in alloc; 0u8; CHUNK]
}

/// Asks a source for the next piece of a file, of which no more than this many bytes may be asked
/// for in all.
fn ask<I: Inputs>(
    inputs: &mut I,
    name: &str,
    at: u64,
    most: u64,
    into: &mut [u8],
) -> Result<usize, ReadRefusal>
    requires room { 0 < length into.old }
    requires most { most ≤ 268435457 }
    requires within { at + length into.old ≤ most }
    ensures files { I.file inputs.new ≡ I.file inputs.old }
    ensures asked { Asks (I.asked inputs.old) (I.asked inputs.new) name.now }
    ensures bound { IfOk result (λ n. n ≤ length into.old) }
    ensures bytes { IfOk result (λ n. ReadsAt (I.file inputs.old name.now) at n into.new) }
    ensures later { I.faults inputs.old ≤ I.faults inputs.new }
    ensures stays { StaysCount (I.faults inputs.old) (I.faults inputs.new) }
    ensures fault { IsErrOf result ReadRefusal.ReadFault → Rose (I.faults inputs.old) (I.faults inputs.new) }
    ensures long { IsErrOf result ReadRefusal.TooLong → ⊥ }
{
    match inputs.read_at(name, at, into) {
        Ok(count) => Ok(count),
        Err(failed) => Err(ReadRefusal::from(failed)),
    }
}

/// Reads the file of this name from its first byte to its end. The limit is in bytes.
///
/// `TooLong` comes as soon as one byte more than the limit was read, and no byte behind that one is
/// asked for. It must come where the file is longer and the source met no fault, want of memory
/// aside, since no other answer may. Memory for the file is taken as its bytes come.
#[tactic(auto, using(crate::proofs::Counts::told_still))]
pub fn read_whole<I: Inputs>(
    alloc: Global,
    inputs: &mut I,
    name: &str,
    limit: u64,
) -> Result<Vec<u8>, ReadRefusal>
    requires { limit ≤ 268435456 }
    ensures files { I.file inputs.new ≡ I.file inputs.old }
    ensures asked { AsksAlone (I.asked inputs.old) (I.asked inputs.new) name.now }
    ensures told { is_some (I.asked inputs.new name.now) ≡ is_some (I.asked inputs.old name.now) }

    ensures whole { IfOk result (λ v. IsFile (I.file inputs.old name.now) v.items) }
    ensures within { IfOk result (λ v. length v.items ≤ limit) }
    ensures long { IsErrOf result ReadRefusal.TooLong → IsLonger (I.file inputs.old name.now) limit }

    ensures later { I.faults inputs.old ≤ I.faults inputs.new }
    ensures stays { StaysCount (I.faults inputs.old) (I.faults inputs.new) }
    ensures fault { IsErrOf result ReadRefusal.ReadFault → Rose (I.faults inputs.old) (I.faults inputs.new) }
{
    let mut room = buffer(alloc)?;
    let chunk = room.as_mut_slice();
    let mut bytes = Vec::new(alloc);
    'pieces: loop {
        let at = bytes.len() as u64;
        let wanted = (limit + 1 - at).min(chunk.len() as u64) as usize;
        let piece = &mut chunk[..wanted];
        let count = ask(inputs, name, at, limit + 1, piece)?;
        if count == 0 {
            return Ok(bytes);
        }
        if (bytes.len() + count) as u64 > limit {
            return Err(ReadRefusal::TooLong);
        }
        bytes.extend_from_slice(&piece[..count])?;
    }
}

/// Hands all bytes to a sink, and what a short `put` left again. It takes no memory.
///
/// After `WriteFault` the sink has taken a prefix of the bytes. Without bytes the sink isn't asked.
pub fn put_all<S: Sink>(sink: &mut S, bytes: &[u8]) -> Result<(), WriteFault>
    ensures all { OnOk result (Wrote (S.written sink.old) (S.written sink.new) bytes.now) }
    ensures front { OnErr result (WrotePrefix (S.written sink.old) (S.written sink.new) bytes.now) }
    ensures cause { HasCause (S.faults sink.old) (S.faults sink.new) result }
    ensures stays { StaysCount (S.faults sink.old) (S.faults sink.new) }
{
    let mut rest = bytes;
    'pieces: while !rest.is_empty() {
        match sink.put(rest) {
            Ok(count) => rest = rest.split_at(count).1,
            Err(_) => return Err(WriteFault),
        }
    }
    Ok(())
}
