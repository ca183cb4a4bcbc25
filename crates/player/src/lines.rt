//! Room for what a view shows, and the trailer.

ghost use Rattle.std.specs.Prelude.{◌≡◌, ◌≤◌, length, IfOk, OnOk, OnErr};
ghost use Rattle.rp_io.specs.Causes.{HasCause, Wrote, WrotePrefix};
ghost use Rattle.report.specs.Trailers.{trailer};

use report::{Counts, LineBuf, push_trailer};
use rp_io::{Sink, WriteFault, put_all};
use rp_text::NoMemory;
use std::alloc::Global;

/// Room for the trailer.
const TRAILER_ROOM: usize = 96;

/// A byte for each value of a view.
pub fn zeros(alloc: Global, count: usize) -> Result<Vec<u8>, NoMemory>
    ensures { IfOk result (λ values. length values.items ≡ count) }
{
    Ok(vec![in alloc; 0u8; count]?)
}

/// A line with room for the trailer.
pub fn trailer_line(alloc: Global) -> Result<LineBuf, NoMemory>
    ensures { IfOk result (λ line. 96 ≤ line.room) }
{
    LineBuf::new(alloc, TRAILER_ROOM)
}

/// Writes the trailer.
pub fn put_trailer<O: Sink>(
    out: &mut O,
    line: &mut LineBuf,
    counts: Option<Counts>,
) -> Result<(), WriteFault>
    requires { 96 ≤ line.old.room }
    ensures all { OnOk result (Wrote (O.written out.old) (O.written out.new) (trailer counts)) }
    ensures front { OnErr result (WrotePrefix (O.written out.old) (O.written out.new) (trailer counts)) }
    ensures cause { HasCause (O.faults out.old) (O.faults out.new) result }
{
    line.clear();
    push_trailer(line, counts);
    put_all(out, line.bytes())
}
