//! The line of a firing.

ghost use Rattle.std.specs.Prelude.{◌≤◌};
ghost use Rattle.report.specs.RoomyText.{Appends};
ghost use Rattle.report.specs.FireLine.{fire_line};

use crate::LineBuf;
use build::Pos;

/// Appends the line of a place that fired.
#[tactic(auto, unfolding(crate::specs::FireLine::fire_line))]
pub fn push_fire(buf: &mut LineBuf, pos: Pos)
    requires { 48 ≤ buf.old.spare }
    ensures { Appends buf.old buf.new (fire_line pos) }
{
    buf.push(b"fire ");
    buf.push_place(pos);
    buf.push(b"\n");
}
