//! The lines of a tick: its firings, and its view.

ghost use Rattle.std.specs.Prelude.{◌≡◌, ◌≤◌, ◌<◌, ◌+◌, ◌*◌, true, false, IfErr, OnOk, drop, length};
ghost use Rattle.circuit.specs.declared.Pos.{Pos};
ghost use Rattle.circuit.specs.Circuit.{IsDue, later};
ghost use Rattle.build.specs.Plan.{IsWhole};
ghost use Rattle.power_rules.specs.World.{world_circuit};
ghost use Rattle.replay_engine.specs.Running.{state_in, HasFired};
ghost use Rattle.world_order.specs.BadLine.{is_fire};
ghost use Rattle.world_order.specs.LineForms.{place_named};
ghost use Rattle.world_order.specs.Reading.{Fires, HasBegun, IsBadTick, IsFront, IsNoFiring, IsNotNow, ReadsFiring, ReadsTick, kind_of, place_of};

use crate::front::{Bad, Front};
use crate::lines::{FireLine, fire_line, is_fire, is_unended};
use crate::take::take_view;
use circuit::Pos;
use replay_engine::{Replay, Unlawful};
use report::{Cause, LineBuf, OrderKind};

// The place, if its numbers are those of places.
fn place_of(fire: FireLine) -> Option<Pos>
    ensures { result ≡ place_of fire }
{
    let x = i32::try_from(fire.x).ok()?;
    let y = i32::try_from(fire.y).ok()?;
    let z = i32::try_from(fire.z).ok()?;
    Some(Pos { x, y, z })
}

// The kind of a line whose place may not fire.
fn kind_of(why: Unlawful) -> OrderKind
    ensures { result ≡ kind_of why }
{
    match why {
        Unlawful::Twice => OrderKind::Twice,
        Unlawful::NotDue => OrderKind::NotDue,
        Unlawful::Priority => OrderKind::Priority,
    }
}

// The place that a line names fires, if it may.
fn fire_named(replay: &mut Replay, fire: FireLine) -> Result<(), OrderKind>
    requires late { 0 < replay.old.time }
    requires whole { IsWhole replay.old.plan }
    ensures ok { OnOk result (Fires (world_circuit replay.old.plan replay.old.marks) replay.old replay.new (place_named fire)) }
    ensures refused { IfErr result (IsNotNow (world_circuit replay.old.plan replay.old.marks) (state_in replay.old) (HasFired replay.old) (place_named fire)) }
    ensures plan { replay.new.plan ≡ replay.old.plan }
    ensures marks { replay.new.marks ≡ replay.old.marks }
    ensures time { replay.new.time ≡ replay.old.time }
{
    let Some(pos) = place_of(fire) else {
        return Err(OrderKind::NotDue);
    };
    match replay.fire(pos) {
        Ok(()) => Ok(()),
        Err(why) => Err(kind_of(why)),
    }
}

// Takes the line of a firing, as the text begins like one.
fn take_firing(text: &[u8], front: &mut Front, replay: &mut Replay) -> Result<(), Bad>
    requires front { IsFront text.now front.old }
    requires fire { is_fire (drop front.old.at text.now) ≡ true }
    requires late { 0 < replay.old.time }
    requires whole { IsWhole replay.old.plan }
    ensures ok { OnOk result (ReadsFiring (world_circuit replay.old.plan replay.old.marks) replay.old replay.new text.now front.old front.new) }
    ensures on { OnOk result (front.old.at < front.new.at) }
    ensures refused { IfErr result (IsNoFiring (world_circuit replay.old.plan replay.old.marks) (state_in replay.old) (HasFired replay.old) text.now front.old) }
    ensures plan { replay.new.plan ≡ replay.old.plan }
    ensures marks { replay.new.marks ≡ replay.old.marks }
    ensures time { replay.new.time ≡ replay.old.time }
{
    let rest = &text[front.at..];
    if is_unended(rest) {
        return Err(front.bad(OrderKind::Short));
    }
    let Some(fire) = fire_line(rest) else {
        return Err(front.bad(OrderKind::Form));
    };
    match fire_named(replay, fire) {
        Ok(()) => {
            front.at += fire.len;
            front.fires += 1;
            Ok(())
        }
        Err(kind) => Err(front.bad(kind)),
    }
}

// Takes the lines of the firings of a tick that has just begun.
fn take_firings(text: &[u8], front: &mut Front, replay: &mut Replay) -> Result<(), Bad>
    requires front { IsFront text.now front.old }
    requires fresh { (key : Pos) → HasFired replay.old key → ⊥ }
    requires late { 0 < replay.old.time }
    requires whole { IsWhole replay.old.plan }
    ensures ok { OnOk result (HasBegun (world_circuit replay.old.plan replay.old.marks) (state_in replay.old) replay.new text.now front.old front.new) }
    ensures last { OnOk result (is_fire (drop front.new.at text.now) ≡ false) }
    ensures refused { IfErr result (IsBadTick replay.old.plan replay.old.marks (state_in replay.old) text.now front.old) }
    ensures plan { replay.new.plan ≡ replay.old.plan }
    ensures marks { replay.new.marks ≡ replay.old.marks }
    ensures time { replay.new.time ≡ replay.old.time }
{
    while is_fire(&text[front.at..]) {
        take_firing(text, front, replay)?;
    }
    Ok(())
}

// Whether something that is due in this tick hasn't fired.
fn has_left(replay: &Replay) -> bool
    ensures left { result ≡ true → (key : Pos) × IsDue (world_circuit replay.now.plan replay.now.marks) (state_in replay.now) key }
    ensures none { result ≡ false → (key : Pos) → IsDue (world_circuit replay.now.plan replay.now.marks) (state_in replay.now) key → ⊥ }
{
    !replay.is_done()
}

/// Takes the lines of a tick: its firings, and its view.
pub fn take_tick(
    text: &[u8],
    front: &mut Front,
    replay: &mut Replay,
    values: &mut [u8],
    line: &mut LineBuf,
) -> Result<(), Bad>
    requires front { IsFront text.now front.old }
    requires long { length text.now ≤ 268435456 }
    requires none { (key : Pos) → IsDue (world_circuit replay.old.plan replay.old.marks) (state_in replay.old) key → ⊥ }
    requires early { replay.old.time < 4611686018427387904 }
    requires whole { IsWhole replay.old.plan }
    requires values { length values.old ≡ length (world_circuit replay.old.plan replay.old.marks).shown }
    requires room { 32 + 3 * length values.old ≤ line.old.room }
    ensures ok { OnOk result (ReadsTick (world_circuit replay.old.plan replay.old.marks) (state_in replay.old) (state_in replay.new) text.now front.old front.new) }
    ensures none { OnOk result ((key : Pos) → IsDue (world_circuit replay.old.plan replay.old.marks) (state_in replay.new) key → ⊥) }
    ensures refused { IfErr result (IsBadTick replay.old.plan replay.old.marks (later (state_in replay.old)) text.now front.old) }
    ensures plan { replay.new.plan ≡ replay.old.plan }
    ensures marks { replay.new.marks ≡ replay.old.marks }
    ensures time { replay.new.time ≡ replay.old.time + 1 }
    ensures room { line.new.room ≡ line.old.room }
{
    replay.advance();
    take_firings(text, front, replay)?;
    if is_unended(&text[front.at..]) {
        return Err(front.bad(OrderKind::Short));
    }
    if has_left(replay) {
        return Err(front.bad(OrderKind::Left));
    }
    take_view(text, front, replay, Cause::Tick, values, line)?;
    front.tick += 1;
    Ok(())
}
