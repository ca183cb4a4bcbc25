//! What plays a circuit, and the writing of a run of it.

ghost use Rattle.std.specs.Prelude.{◌≡◌, ℕ, ◌+◌, ◌<◌, ◌≤◌, ◌^◌, ◌++◌, List, OnOk, OnErr};
ghost use Rattle.rp_io.specs.Causes.{HasCause, Wrote, WrotePrefix};
ghost use Rattle.circuit.specs.Circuit.{Circuit, State, start, view};
ghost use Rattle.circuit.specs.Taken.{EachActTaken};
ghost use Rattle.report.specs.Trailers.{trailer as trailer_of};
ghost use Rattle.report.specs.ViewLine.{view_line};
ghost use Rattle.player.specs.Moments.{moment_after};
ghost use Rattle.player.specs.Played.{TakenStep};
ghost use Rattle.player.specs.AnyRun.{HasKeys, RunsTo, StepsOn, WroteText, WroteTextPrefix};

use crate::lines::put_trailer;
use circuit::Step;
use report::{Cause, Counts, LineBuf};
use rp_io::{Sink, WriteFault, put_all};
use script::Script;
use view_text::LastView;

/// What plays a circuit, step by step, and tells what its outputs show.
///
/// `S` counts what the events cost.
pub trait Plays<S> {
    /// The keys of the circuit.
    ghost Key: { Type 0 };

    ghost circuit: { Self → Circuit Key };

    ghost state: { Self → State Key };

    /// Whether this is the number of events so far.
    ghost counted: { Self → ℕ → Type 0 };

    /// What an event of a key may cost.
    ghost cost: { Self → Key → ℕ };

    /// What was spent so far.
    ghost spent: { S → ℕ };

    /// The trailer after so many events.
    ghost trailer: { Self → ℕ → List ℕ };

    /// How many more steps may be taken at least.
    ghost ahead: { Self → ℕ };

    /// What is noted of the firings of a tick, before the line of its view.
    ghost note: { Self → List Key → List ℕ };

    /// What is noted of the step that was taken last.
    ghost noted: { Self → List ℕ };

    /// The number of ticks since the start.
    fn time(&self) -> u64
        ensures { result ≡ (state self.now).time };

    /// Takes a step, and puts the value of each output that changed.
    fn step(&mut self, step: Step, shown: &mut LastView, costs: &mut S)
        requires ahead { 0 < ahead self.old }
        requires taken { TakenStep (circuit self.old) step }
        requires shown { shown.old ≡ view (circuit self.old) (state self.old) }
        ensures circuit { circuit self.new ≡ circuit self.old }
        ensures cost { cost self.new ≡ cost self.old }
        ensures trailer { trailer self.new ≡ trailer self.old }
        ensures ahead { ahead self.old ≤ ahead self.new + 1 }
        ensures time { (state self.new).time ≡ (moment_after (state self.old).time step).time }
        ensures note { note self.new ≡ note self.old }
        ensures step { StepsOn (circuit self.old) (cost self.old) (note self.old) step (state self.old) (state self.new) (counted self.old) (counted self.new) (spent costs.old) (spent costs.new) (noted self.new) }
        ensures shown { shown.new ≡ view (circuit self.old) (state self.new) };

    /// Writes what is noted of the step that was taken last.
    fn put_noted<O: Sink>(&self, line: &mut LineBuf, out: &mut O) -> Result<(), WriteFault>
        requires room { 96 ≤ line.old.room }
        ensures room { line.new.room ≡ line.old.room }
        ensures all { OnOk result (Wrote (O.written out.old) (O.written out.new) (noted self.now)) }
        ensures front { OnErr result (WrotePrefix (O.written out.old) (O.written out.new) (noted self.now)) }
        ensures cause { HasCause (O.faults out.old) (O.faults out.new) result };

    /// The counts for the trailer.
    fn counts(&self) -> Option<Counts>
        ensures { (count : ℕ) → counted self.now count → trailer_of result ≡ trailer self.now count };

    ghost keys: { (s : Self) → HasKeys (circuit s) };
}

/// The cause of the view after a step.
fn cause_after(step: Step) -> Cause
    ensures { (time : ℕ) → result ≡ (moment_after time step).cause }
{
    match step {
        Step::Click { click, .. } => Cause::of_click(click),
        Step::Tick => Cause::Tick,
    }
}

/// Writes what is noted of a step, which was taken last, and the line of the view after it.
fn put_step<O: Sink, S, P: Plays<S>>(
    player: &P,
    step: Step,
    shown: &mut LastView,
    line: &mut LineBuf,
    out: &mut O,
) -> Result<(), WriteFault>
    requires room { 96 ≤ line.old.room }
    ensures same { shown.new ≡ shown.old }
    ensures room { line.new.room ≡ line.old.room }
    ensures all { (time : ℕ) → OnOk result (Wrote (O.written out.old) (O.written out.new) (P.noted player.now ++ view_line (P.state player.now).time (moment_after time step).cause shown.old)) }
    ensures front { (time : ℕ) → OnErr result (WrotePrefix (O.written out.old) (O.written out.new) (P.noted player.now ++ view_line (P.state player.now).time (moment_after time step).cause shown.old)) }
    ensures cause { HasCause (O.faults out.old) (O.faults out.new) result }
{
    player.put_noted(line, out)?;
    shown.put(out, player.time(), cause_after(step))
}

/// Writes the run of what has just started: the header, a line for each view, what is noted of a
/// tick before its line, and the trailer.
pub fn put_run<O: Sink, S, P: Plays<S>>(
    header: &[u8],
    script: &Script,
    player: &mut P,
    shown: &mut LastView,
    line: &mut LineBuf,
    out: &mut O,
    costs: &mut S,
) -> Result<(), WriteFault>
    requires taken { EachActTaken (P.circuit player.old) script.now.acts }
    requires start { P.state player.old ≡ start (P.circuit player.old) }
    requires none { P.counted player.old 0 }
    requires ahead { 2 ^ 30 ≤ P.ahead player.old }
    requires shown { shown.old ≡ view (P.circuit player.old) (P.state player.old) }
    requires room { 96 ≤ line.old.room }
    ensures done { OnOk result (WroteText (P.circuit player.old) (P.cost player.old) (P.note player.old) header.now script.now.acts (P.trailer player.old) (P.counted player.new) (O.written out.old) (O.written out.new) (P.spent costs.old) (P.spent costs.new) (P.state player.new)) }
    ensures shown { OnOk result (shown.new ≡ view (P.circuit player.old) (P.state player.new)) }
    ensures front { OnErr result (WroteTextPrefix (P.circuit player.old) (P.cost player.old) (P.note player.old) header.now script.now.acts (P.trailer player.old) (O.written out.old) (O.written out.new) (P.spent costs.old) (P.spent costs.new)) }
    ensures cause { HasCause (O.faults out.old) (O.faults out.new) result }
{
    put_all(out, header)?;
    shown.put(out, player.time(), Cause::Start)?;
    for step in script.steps() {
        player.step(step, shown, costs);
        put_step(player, step, shown, line, out)?;
    }
    put_trailer(out, line, player.counts())
}

/// Plays what has just started to the end of a script, and writes nothing. `shown` has the values
/// of the last view then.
pub fn play_on<S, P: Plays<S>>(script: &Script, player: &mut P, shown: &mut LastView, costs: &mut S)
    requires taken { EachActTaken (P.circuit player.old) script.now.acts }
    requires start { P.state player.old ≡ start (P.circuit player.old) }
    requires none { P.counted player.old 0 }
    requires ahead { 2 ^ 30 ≤ P.ahead player.old }
    requires shown { shown.old ≡ view (P.circuit player.old) (P.state player.old) }
    ensures circuit { P.circuit player.new ≡ P.circuit player.old }
    ensures done { RunsTo (P.circuit player.old) (P.cost player.old) script.now.acts (P.counted player.new) (P.spent costs.old) (P.spent costs.new) (P.state player.new) }
    ensures shown { shown.new ≡ view (P.circuit player.old) (P.state player.new) }
{
    for step in script.steps() {
        player.step(step, shown, costs);
    }
}
