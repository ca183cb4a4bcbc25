//! The end of a text.

ghost use Rattle.std.specs.Prelude.{◌≤◌, ◌+◌};
ghost use Rattle.report.specs.RoomyText.{Appends};
ghost use Rattle.report.specs.Trailers.{counts_line, trailer};

use crate::{Counts, LineBuf};

/// Appends the line of the counts, where there are some, and the last line.
pub fn push_trailer(buf: &mut LineBuf, counts: Option<Counts>)
    requires { 96 ≤ buf.old.spare }
    ensures { Appends buf.old buf.new (trailer counts) }
{
    if let Some(counts) = counts {
        push_counts(buf, counts);
    }
    buf.push(b"end\n");
}

#[tactic(auto, unfolding(crate::specs::Trailers::counts_line))]
fn push_counts(buf: &mut LineBuf, counts: Counts)
    requires { 96 ≤ buf.old.spare }
    ensures text { Appends buf.old buf.new (counts_line counts) }
    ensures short { buf.old.spare ≤ buf.new.spare + 90 }
{
    buf.push(b"nodes ");
    buf.push_number(counts.nodes);
    buf.push(b" links ");
    buf.push_number(counts.links);
    buf.push(b" events ");
    buf.push_number(counts.events);
    buf.push(b"\n");
}
