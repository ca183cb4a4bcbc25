//! Whether a text is that of an order: it is read line by line, while the build is played as the
//! text says.

ghost use Rattle.std.specs.Prelude.{◌≡◌, ◌≤◌, ◌<◌, ◌+◌, ◌*◌, ℕ, List, count_by, take, IfErr, IfOk, IsErrOf, OnOk, length};
ghost use Rattle.circuit.specs.declared.Pos.{Pos};
ghost use Rattle.circuit.specs.Circuit.{IsDue, start};
ghost use Rattle.build.specs.Outputs.{outputs};
ghost use Rattle.build.specs.Plan.{IsWhole};
ghost use Rattle.power_rules.specs.World.{world_circuit};
ghost use Rattle.replay_engine.specs.Running.{state_in};
ghost use Rattle.report.specs.Header.{header};
ghost use Rattle.report.specs.declared.OrderKind.{OrderKind};
ghost use Rattle.script.specs.Acts.{IsShort};
ghost use Rattle.script.specs.Clickable.{takes_click, is_wire_at};
ghost use Rattle.script.specs.Fit.{IsFit};
ghost use Rattle.world_order.specs.BadLine.{IsBadLine};
ghost use Rattle.world_order.specs.OrderText.{IsChecked, IsOrder, is_break};
ghost use Rattle.world_order.specs.Reading.{IsBadFrom, IsBadStep, IsFront, IsRead, IsReady, ReadsStep, TakenStep};

use crate::front::{Bad, Front};
use crate::take::{take_end, take_header, take_view};
use crate::tick::take_tick;
use crate::{Checked, OrderRefusal};
use build::{Build, outputs};
use circuit::Step;
use replay_engine::Replay;
use report::{Cause, LineBuf, push_header};
use rp_text::NoMemory;
use script::Script;
use std::alloc::Global;

// Takes the lines of a step.
fn take_step(
    text: &[u8],
    front: &mut Front,
    replay: &mut Replay,
    step: Step,
    values: &mut [u8],
    line: &mut LineBuf,
) -> Result<(), Bad>
    requires front { IsFront text.now front.old }
    requires long { length text.now ≤ 268435456 }
    requires none { (key : Pos) → IsDue (world_circuit replay.old.plan replay.old.marks) (state_in replay.old) key → ⊥ }
    requires early { replay.old.time < 4611686018427387904 }
    requires whole { IsWhole replay.old.plan }
    requires values { length values.old ≡ length (world_circuit replay.old.plan replay.old.marks).shown }
    requires room { 32 + 3 * length values.old ≤ line.old.room }
    requires taken { TakenStep (world_circuit replay.old.plan replay.old.marks) step }
    ensures ok { OnOk result (ReadsStep (world_circuit replay.old.plan replay.old.marks) step (state_in replay.old) (state_in replay.new) text.now front.old front.new) }
    ensures none { OnOk result ((key : Pos) → IsDue (world_circuit replay.old.plan replay.old.marks) (state_in replay.new) key → ⊥) }
    ensures refused { IfErr result (IsBadStep replay.old.plan replay.old.marks step (state_in replay.old) text.now front.old) }
    ensures plan { replay.new.plan ≡ replay.old.plan }
    ensures marks { replay.new.marks ≡ replay.old.marks }
    ensures time { replay.new.time ≤ replay.old.time + 1 }
    ensures room { line.new.room ≡ line.old.room }
{
    match step {
        Step::Click { pos, click } => match replay.click(pos, click) {
            Ok(()) => take_view(text, front, replay, Cause::of_click(click), values, line),
            Err(_) => unreachable!(),
        },
        Step::Tick => take_tick(text, front, replay, values, line),
    }
}

// Takes the whole text.
fn take_text(
    text: &[u8],
    header: &[u8],
    script: &Script,
    replay: &mut Replay,
    values: &mut [u8],
    line: &mut LineBuf,
) -> Result<Front, Bad>
    requires ready { IsReady replay.old header.now values.old line.old }
    requires long { length text.now ≤ 268435456 }
    requires whole { IsWhole replay.old.plan }
    requires marks { replay.old.marks ≡ script.now.marks }
    requires script { IsFit (takes_click replay.old.plan) (is_wire_at replay.old.plan) script.now }
    ensures ok { IfOk result (IsRead replay.old.plan script.now text.now) }
    ensures refused { IfErr result (IsBadFrom replay.old.plan script.now text.now) }
{
    let mut front = Front {
        at: 0,
        tick: 0,
        fires: 0,
    };
    take_header(text, &mut front, header)?;
    take_view(text, &mut front, replay, Cause::Start, values, line)?;
    for step in script.steps() {
        take_step(text, &mut front, replay, step, values, line)?;
    }
    take_end(text, &mut front)?;
    Ok(front)
}

// How many lines end in the text.
fn count_breaks(text: &[u8]) -> usize
    ensures { result ≡ count_by is_break text.now }
{
    text.iter().filter(|byte| **byte == b'\n').count()
}

// The number of the line that begins at a place. Lines count from 1.
fn line_at(text: &[u8], at: usize) -> u32
    requires within { at ≤ length text.now }
    requires long { length text.now ≤ 268435456 }
    ensures { result ≡ count_by is_break (take at text.now) + 1 }
{
    count_breaks(&text[..at]) as u32 + 1
}

/// All memory of a check, and the build as it starts.
#[derive(Drop)]
struct Memory {
    header: Vec<u8>,
    values: Vec<u8>,
    line: LineBuf,
    replay: Replay,
}

/// Takes the memory of a check.
fn take_memory(alloc: Global, build: &Build, script: &Script) -> Result<Memory, NoMemory>
    ensures ready { IfOk result (λ memory. IsReady memory.replay memory.header.items memory.values.items memory.line) }
    ensures plan { IfOk result (λ memory. memory.replay.plan ≡ build.now) }
    ensures marks { IfOk result (λ memory. memory.replay.marks ≡ script.now.marks) }
    ensures whole { IsWhole build.now }
    ensures short { IsShort script.now.acts }
{
    let _ = build.cells();
    let _ = script.len();
    let places = outputs(alloc, build, script.marks())?;
    let mut header = Vec::new(alloc);
    push_header(&mut header, &places)?;
    let values = vec![in alloc; 0u8; places.len()]?;
    let line = LineBuf::new(alloc, 32 + 3 * places.len())?;
    let replay = Replay::start(alloc, build, script.marks())?;
    Ok(Memory {
        header,
        values,
        line,
        replay,
    })
}

/// Checks that a text is that of an order which the build's world plays, and tells how many ticks
/// and firings that order has. It reads the text once and plays the blocks as it says; a line that
/// no order's text has there is told by its number from 1, the number of ticks before it, and the
/// first kind that holds of it.
pub fn check(
    alloc: Global,
    build: &Build,
    script: &Script,
    text: &[u8],
) -> Result<Checked, OrderRefusal>
    requires script { IsFit (takes_click build.now) (is_wire_at build.now) script.now }
    requires long { length text.now ≤ 268435456 }
    ensures ok { IfOk result (λ checked. IsChecked build.now script.now text.now checked) }
    ensures bad { (line tick : ℕ) (kind : OrderKind) → IsErrOf result (OrderRefusal.At line tick kind) → IsBadLine build.now script.now text.now line tick kind }
    ensures none { (line tick : ℕ) (kind : OrderKind) → IsErrOf result (OrderRefusal.At line tick kind) → (order : List (List Pos)) → IsOrder build.now script.now text.now order → ⊥ }
{
    let Ok(mut memory) = take_memory(alloc, build, script) else {
        return Err(OrderRefusal::NoMemory);
    };
    match take_text(
        text,
        &memory.header,
        script,
        &mut memory.replay,
        &mut memory.values,
        &mut memory.line,
    ) {
        Ok(front) => Ok(Checked {
            ticks: front.tick,
            fires: front.fires,
        }),
        Err(bad) => Err(OrderRefusal::At {
            line: line_at(text, bad.at),
            tick: bad.tick,
            kind: bad.kind,
        }),
    }
}
