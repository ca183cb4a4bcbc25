//! What is said of an order that was checked.

ghost use Rattle.std.specs.Prelude.{◌≤◌, ◌+◌};
ghost use Rattle.report.specs.RoomyText.{Appends};
ghost use Rattle.report.specs.CheckedText.{tally_line, checked_text};

use crate::{LineBuf, push_trailer};

/// Appends how many ticks and firings an order has, and the last line.
#[tactic(auto, unfolding(crate::specs::CheckedText::checked_text))]
pub fn push_checked(buf: &mut LineBuf, ticks: u32, fires: u64)
    requires { 160 ≤ buf.old.spare }
    ensures { Appends buf.old buf.new (checked_text ticks fires) }
{
    push_tally(buf, ticks, fires);
    push_trailer(buf, None);
}

#[tactic(auto, unfolding(crate::specs::CheckedText::tally_line))]
fn push_tally(buf: &mut LineBuf, ticks: u32, fires: u64)
    requires { 64 ≤ buf.old.spare }
    ensures text { Appends buf.old buf.new (tally_line ticks fires) }
    ensures short { buf.old.spare ≤ buf.new.spare + 64 }
{
    buf.push(b"ticks ");
    buf.push_number(u64::from(ticks));
    buf.push(b" fires ");
    buf.push_number(fires);
    buf.push(b"\n");
}
