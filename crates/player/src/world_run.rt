//! Plays the blocks of a build.

ghost use Rattle.std.specs.Prelude.{◌≡◌, ◌≤◌, IfOk, OnOk, OnErr};
ghost use Rattle.rp_io.specs.Causes.{HasCause};
ghost use Rattle.circuit.specs.Circuit.{view, start};
ghost use Rattle.power_rules.specs.World.{world_circuit};
ghost use Rattle.world_engine.specs.Running.{state_in};
ghost use Rattle.script.specs.Clickable.{takes_click, is_wire_at};
ghost use Rattle.script.specs.Fit.{IsFit};
ghost use Rattle.player.specs.Ending.{EndsWriting};
ghost use Rattle.player.specs.Played.{header_of, WroteRun, WroteRunPrefix};
ghost use Rattle.player.specs.Started.{IsStartedWorld};

use crate::PlayRefusal;
use crate::lines::{trailer_line, zeros};
use crate::plays::put_run;
use crate::world_play::WorldPlay;
use build::{Build, outputs};
use report::{LineBuf, push_header};
use rp_io::{Sink, WriteFault};
use rp_text::NoMemory;
use script::Script;
use std::alloc::Global;
use view_text::LastView;
use world_engine::World;

/// Writes the run of a world that has just started.
fn put_world<O: Sink>(
    header: &[u8],
    script: &Script,
    play: &mut WorldPlay,
    shown: &mut LastView,
    line: &mut LineBuf,
    out: &mut O,
) -> Result<(), WriteFault>
    requires header { header.now ≡ header_of play.old.world.plan play.old.world.marks }
    requires marks { play.old.world.marks ≡ script.now.marks }
    requires script { IsFit (takes_click play.old.world.plan) (is_wire_at play.old.world.plan) script.now }
    requires time { play.old.world.time ≡ 0 }
    requires start { state_in play.old.world ≡ start (world_circuit play.old.world.plan play.old.world.marks) }
    requires shown { shown.old ≡ view (world_circuit play.old.world.plan play.old.world.marks) (state_in play.old.world) }
    requires room { 96 ≤ line.old.room }
    ensures done { OnOk result (WroteRun play.old.world.plan script.now (O.written out.old) (O.written out.new)) }
    ensures front { OnErr result (WroteRunPrefix play.old.world.plan script.now (O.written out.old) (O.written out.new)) }
    ensures cause { HasCause (O.faults out.old) (O.faults out.new) result }
{
    put_run(header, script, play, shown, line, out, &mut ())
}

/// A world that has just started, with all memory that its run takes.
#[derive(Drop)]
struct StartedWorld {
    header: Vec<u8>,
    play: WorldPlay,
    shown: LastView,
    line: LineBuf,
}

/// Starts the world of a build, with the marks of a script.
fn start(alloc: Global, build: &Build, script: &Script) -> Result<StartedWorld, NoMemory>
    requires { IsFit (takes_click build.now) (is_wire_at build.now) script.now }
    ensures { IfOk result (λ started. IsStartedWorld build.now script.now.marks started.play.world started.header.items started.shown started.line) }
{
    let places = outputs(alloc, build, script.marks())?;
    let mut header = Vec::new(alloc);
    push_header(&mut header, &places)?;
    let line = trailer_line(alloc)?;
    let world = World::start(alloc, build, script.marks())?;
    let mut values = zeros(alloc, world.output_count())?;
    let seen = values.as_mut_slice();
    world.view(seen);
    let shown = LastView::new(alloc, seen)?;
    Ok(StartedWorld {
        header,
        play: WorldPlay { world, values },
        shown,
        line,
    })
}

/// Plays a script on the blocks of a build: the header, a line for each view, and the trailer.
/// All memory is taken before the first write.
pub fn play_world<O: Sink>(
    alloc: Global,
    build: &Build,
    script: &Script,
    out: &mut O,
) -> Result<(), PlayRefusal>
    requires { IsFit (takes_click build.now) (is_wire_at build.now) script.now }
    ensures { EndsWriting (λ done. WroteRun build.now script.now (O.written out.old) (O.written out.new))
        (WroteRunPrefix build.now script.now (O.written out.old) (O.written out.new)) (out.new ≡ out.old) (O.faults out.old) (O.faults out.new) result }
{
    let mut started = start(alloc, build, script)?;
    match put_world(
        &started.header,
        script,
        &mut started.play,
        &mut started.shown,
        &mut started.line,
        out,
    ) {
        Ok(()) => Ok(()),
        Err(WriteFault) => Err(PlayRefusal::WriteFault),
    }
}
