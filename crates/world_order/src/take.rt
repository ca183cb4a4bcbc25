//! The lines that have to stand in a text, one after another.

ghost use Rattle.std.specs.Prelude.{◌≡◌, ◌≤◌, ◌<◌, ◌+◌, ◌*◌, ℕ, List, IfErr, OnOk, length, take};
ghost use Rattle.circuit.specs.Circuit.{Each, view};
ghost use Rattle.power_rules.specs.World.{world_circuit};
ghost use Rattle.replay_engine.specs.Running.{state_in};
ghost use Rattle.report.specs.ViewLine.{view_line};
ghost use Rattle.world_order.specs.Reading.{IsBadAmong, IsBadEnd, IsFront, IsLine, IsLined, IsNoLine, ReadsCounts, ReadsEnd, ReadsOn, joined};

use crate::front::{Bad, Front};
use crate::lines::{expect, is_counts, is_unended, line_len};
use replay_engine::Replay;
use report::{Cause, LineBuf, OrderKind, push_view};

/// Takes a line that has to stand next.
pub fn take_line(text: &[u8], front: &mut Front, line: &[u8]) -> Result<(), Bad>
    requires { IsFront text.now front.old }
    ensures ok { OnOk result (ReadsOn text.now front.old front.new line.now 0 0) }
    ensures on { OnOk result (front.new.at ≡ front.old.at + length line.now) }
    ensures refused { IfErr result (IsNoLine text.now front.old line.now) }
{
    match expect(&text[front.at..], line) {
        Ok(()) => {
            front.at += line.len();
            Ok(())
        }
        Err(kind) => Err(front.bad(kind)),
    }
}

/// Takes the lines of a header.
pub fn take_header(text: &[u8], front: &mut Front, header: &[u8]) -> Result<(), Bad>
    requires none { front.old ≡ record { at = 0; tick = 0; fires = 0 } }
    requires lined { IsLined header.now }
    ensures ok { OnOk result (ReadsOn text.now front.old front.new header.now 0 0) }
    ensures refused { (lines : List (List ℕ)) → Each IsLine lines → header.now ≡ joined lines → IfErr result (IsBadAmong lines text.now) }
{
    while front.at < header.len() {
        let end = front.at + line_len(&header[front.at..]);
        take_line(text, front, &header[front.at..end])?;
    }
    Ok(())
}

/// Takes the line of the view that the build shows now.
pub fn take_view(
    text: &[u8],
    front: &mut Front,
    replay: &Replay,
    cause: Cause,
    values: &mut [u8],
    line: &mut LineBuf,
) -> Result<(), Bad>
    requires front { IsFront text.now front.old }
    requires values { length values.old ≡ length (world_circuit replay.now.plan replay.now.marks).shown }
    requires room { 32 + 3 * length values.old ≤ line.old.room }
    ensures ok { OnOk result (ReadsOn text.now front.old front.new (view_line replay.now.time cause (view (world_circuit replay.now.plan replay.now.marks) (state_in replay.now))) 0 0) }
    ensures refused { IfErr result (IsNoLine text.now front.old (view_line replay.now.time cause (view (world_circuit replay.now.plan replay.now.marks) (state_in replay.now)))) }
    ensures room { line.new.room ≡ line.old.room }
{
    line.clear();
    replay.view(values);
    push_view(line, replay.time(), cause, values);
    take_line(text, front, line.bytes())
}

// Takes a line of counts, if one stands there.
fn take_counts(text: &[u8], front: &mut Front) -> Result<(), Bad>
    requires { IsFront text.now front.old }
    ensures ok { OnOk result (ReadsCounts text.now front.old front.new) }
    ensures refused { IfErr result (IsBadEnd text.now front.old) }
{
    let rest = &text[front.at..];
    if is_counts(rest) {
        if is_unended(rest) {
            return Err(front.bad(OrderKind::Short));
        }
        front.at += line_len(rest);
    }
    Ok(())
}

/// Takes what stands behind the last view.
pub fn take_end(text: &[u8], front: &mut Front) -> Result<(), Bad>
    requires { IsFront text.now front.old }
    ensures ok { OnOk result (ReadsEnd text.now front.old) }
    ensures tick { OnOk result (front.new.tick ≡ front.old.tick) }
    ensures fires { OnOk result (front.new.fires ≡ front.old.fires) }
    ensures refused { IfErr result (IsBadEnd text.now front.old) }
{
    take_counts(text, front)?;
    take_line(text, front, b"end\n")?;
    if front.at < text.len() {
        return Err(front.bad(OrderKind::Trailing));
    }
    Ok(())
}
