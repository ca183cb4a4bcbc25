//! The head of a line, before its values.

ghost use Rattle.std.specs.Prelude.{◌≡◌, ◌+◌, ◌≤◌, ◌++◌, length, drop};
ghost use Rattle.view_text.specs.Parts.{cause_part, head_part};

use crate::values::HEAD_ROOM;
use itoa::write_digits;
use report::Cause;

/// Puts the time and the cause right before the values, and gives the place where they begin.
pub fn put_head(line: &mut [u8], time: u64, cause: Cause) -> usize
    requires { 32 ≤ length line.old }
    ensures text { drop result line.new ≡ head_part time cause ++ drop 32 line.old }
    ensures values { drop 32 line.new ≡ drop 32 line.old }
    ensures inside { result ≤ 32 }
{
    let middle = put_before(line, HEAD_ROOM, cause_part(cause));
    write_digits(time, line, middle)
}

/// Puts bytes right before a place, and gives the place where they begin.
fn put_before(line: &mut [u8], end: usize, bytes: &[u8]) -> usize
    requires fits { length bytes.now ≤ end }
    requires inside { end ≤ length line.old }
    ensures begin { result + length bytes.now ≡ end }
    ensures text { drop result line.new ≡ bytes.now ++ drop end line.old }
{
    let begin = end - bytes.len();
    line[begin..end].copy_from_slice(bytes);
    begin
}

fn cause_part(cause: Cause) -> &'static [u8]
    ensures text { result.now ≡ cause_part cause }
    ensures short { length result.now ≤ 6 }
{
    match cause {
        Cause::Start => b" start",
        Cause::Tick => b" tick",
        Cause::Use => b" use",
        Cause::Press => b" press",
        Cause::Leave => b" leave",
    }
}
