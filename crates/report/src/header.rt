//! The header of a text.

ghost use Rattle.std.specs.Prelude.{◌≡◌, ◌≤◌, ◌++◌, length, take, OnOk, OnErr};
ghost use Rattle.report.specs.RoomyText.{Appends};
ghost use Rattle.report.specs.Header.{kind_text, count_line, output_line, header};

use crate::LineBuf;
use build::{OutKind, OutPlace};
use rp_text::{NoMemory, push_bytes};

// Room for the longest line of a header.
const HEADER_ROOM: usize = 64;

/// Appends the header of a text: the number of outputs, and a line for each with its place and
/// kind.
pub fn push_header(out: &mut Vec<u8>, places: &[OutPlace]) -> Result<(), NoMemory>
    ensures ok { OnOk result (out.new.items ≡ out.old.items ++ header places.now) }
    ensures err { OnErr result (out.new.items ≡ out.old.items) }
{
    let before = out.len();
    let pushed = extend_with_header(out, places);
    if pushed.is_err() {
        out.truncate(before);
    }
    pushed
}

// Where memory is wanted, a part of the header may be appended.
#[tactic(auto, unfolding(crate::specs::Header::header))]
fn extend_with_header(out: &mut Vec<u8>, places: &[OutPlace]) -> Result<(), NoMemory>
    ensures ok { OnOk result (out.new.items ≡ out.old.items ++ header places.now) }
    ensures err { OnErr result (take (length out.old.items) out.new.items ≡ out.old.items) }
{
    let mut line = LineBuf::new(*out.allocator(), HEADER_ROOM)?;
    push_count(&mut line, places.len());
    push_bytes(out, line.bytes())?;
    for place in places {
        extend_with_output(out, &mut line, *place)?;
    }
    Ok(())
}

#[tactic(auto, unfolding(crate::specs::Header::count_line))]
fn push_count(line: &mut LineBuf, outputs: usize)
    requires { 64 ≤ line.old.spare }
    ensures { Appends line.old line.new (count_line outputs) }
{
    line.push(b"outputs ");
    line.push_number(outputs as u64);
    line.push(b"\n");
}

fn extend_with_output(
    out: &mut Vec<u8>,
    line: &mut LineBuf,
    output: OutPlace,
) -> Result<(), NoMemory>
    requires { line.old.room ≡ 64 }
    ensures room { line.new.room ≡ 64 }
    ensures ok { OnOk result (out.new.items ≡ out.old.items ++ output_line output) }
    ensures err { OnErr result (out.new.items ≡ out.old.items) }
{
    line.clear();
    push_output(line, output);
    push_bytes(out, line.bytes())
}

#[tactic(auto, unfolding(crate::specs::Header::output_line))]
fn push_output(line: &mut LineBuf, output: OutPlace)
    requires { 64 ≤ line.old.spare }
    ensures { Appends line.old line.new (output_line output) }
{
    line.push_place(output.pos);
    line.push(b" ");
    line.push(kind_text(output.kind));
    line.push(b"\n");
}

fn kind_text(kind: OutKind) -> &'static [u8]
    ensures text { result.now ≡ kind_text kind }
    ensures short { length result.now ≤ 8 }
{
    match kind {
        OutKind::Lamp => b"lamp",
        OutKind::Trapdoor => b"trapdoor",
        OutKind::Note => b"note",
        OutKind::Wire => b"wire",
    }
}
