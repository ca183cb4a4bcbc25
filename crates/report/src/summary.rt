//! The summary of a bench.

ghost use Rattle.std.specs.Prelude.{◌≡◌, ◌≤◌, ◌+◌};
ghost use Rattle.report.specs.RoomyText.{Appends};
ghost use Rattle.report.specs.BenchText.{is_lamp, lamps, lamps_on, bench_line, lamps_line, bench_text};

use crate::{Counts, LineBuf, push_trailer};
use build::{OutKind, OutPlace};

/// Appends the summary of a bench: its number, how many lamps are on where the outputs have these
/// values and how many there are, the counts, and the last line.
#[tactic(auto, unfolding(crate::specs::BenchText::bench_text))]
pub fn push_summary(
    buf: &mut LineBuf,
    number: u32,
    outputs: &[OutPlace],
    values: &[u8],
    counts: Counts,
)
    requires { 192 ≤ buf.old.spare }
    ensures { Appends buf.old buf.new (bench_text number outputs.now values.now counts) }
{
    push_bench(buf, number);
    push_lamps(buf, lamps_on(outputs, values), lamps(outputs));
    push_trailer(buf, Some(counts));
}

#[tactic(auto, unfolding(crate::specs::BenchText::bench_line))]
fn push_bench(buf: &mut LineBuf, number: u32)
    requires { 32 ≤ buf.old.spare }
    ensures text { Appends buf.old buf.new (bench_line number) }
    ensures short { buf.old.spare ≤ buf.new.spare + 32 }
{
    buf.push(b"bench ");
    buf.push_number(u64::from(number));
    buf.push(b"\n");
}

#[tactic(auto, unfolding(crate::specs::BenchText::lamps_line))]
fn push_lamps(buf: &mut LineBuf, on: usize, all: usize)
    requires { 64 ≤ buf.old.spare }
    ensures text { Appends buf.old buf.new (lamps_line on all) }
    ensures short { buf.old.spare ≤ buf.new.spare + 64 }
{
    buf.push(b"on ");
    buf.push_number(on as u64);
    buf.push(b" of ");
    buf.push_number(all as u64);
    buf.push(b"\n");
}

fn lamps(outputs: &[OutPlace]) -> usize
    ensures { result ≡ lamps outputs.now }
{
    outputs.iter().filter(|output| is_lamp(output.kind)).count()
}

fn lamps_on(outputs: &[OutPlace], values: &[u8]) -> usize
    ensures { result ≡ lamps_on outputs.now values.now }
{
    outputs
        .iter()
        .zip(values)
        .filter(|shown| is_lamp(shown.0.kind) && *shown.1 > 0)
        .count()
}

fn is_lamp(kind: OutKind) -> bool
    ensures { result ≡ is_lamp kind }
{
    match kind {
        OutKind::Lamp => true,
        _ => false,
    }
}
