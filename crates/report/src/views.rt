//! The line of a view.

ghost use Rattle.std.specs.Prelude.{◌≡◌, ◌≤◌, ◌+◌, ◌*◌, All, length};
ghost use Rattle.report.specs.RoomyText.{Appends};
ghost use Rattle.report.specs.ViewLine.{cause_of, cause_text, value_text, view_line};

use crate::{Cause, LineBuf};
use build::Click;

impl Cause {
    /// The cause of the view after a click.
    pub fn of_click(click: Click) -> Self
        ensures { result ≡ cause_of click }
    {
        match click {
            Click::Use => Cause::Use,
            Click::Press | Click::Weigh { .. } => Cause::Press,
            Click::Leave => Cause::Leave,
        }
    }
}

/// Appends the line of a view: the time in ticks, the cause, and the value of each output, which is
/// 0 or 1, for a wire 0 to 15.
#[tactic(auto, unfolding(crate::specs::ViewLine::view_line))]
pub fn push_view(buf: &mut LineBuf, time: u64, cause: Cause, values: &[u8])
    requires values { All (λ value. value ≤ 15) values.now }
    requires room { 32 + 3 * length values.now ≤ buf.old.spare }
    ensures { Appends buf.old buf.new (view_line time cause values.now) }
{
    buf.push_number(time);
    buf.push(b" ");
    buf.push(cause_text(cause));
    for value in values {
        push_value(buf, *value);
    }
    buf.push(b"\n");
}

#[tactic(auto, unfolding(crate::specs::ViewLine::value_text))]
fn push_value(buf: &mut LineBuf, value: u8)
    requires value { value ≤ 15 }
    requires room { 3 ≤ buf.old.spare }
    ensures text { Appends buf.old buf.new (value_text value) }
    ensures short { buf.old.spare ≤ buf.new.spare + 3 }
{
    buf.push(b" ");
    buf.push_small(value);
}

fn cause_text(cause: Cause) -> &'static [u8]
    ensures text { result.now ≡ cause_text cause }
    ensures short { length result.now ≤ 5 }
{
    match cause {
        Cause::Start => b"start",
        Cause::Tick => b"tick",
        Cause::Use => b"use",
        Cause::Press => b"press",
        Cause::Leave => b"leave",
    }
}
