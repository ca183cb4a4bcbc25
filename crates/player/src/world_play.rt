//! A world that is played step by step.

ghost use Rattle.std.specs.Prelude.{◌≡◌, ◌≤◌, ◌<◌, ◌+◌, ◌-◌, ◌^◌, [], length};
ghost use Rattle.circuit.specs.Circuit.{view, start};
ghost use Rattle.power_rules.specs.World.{world_circuit};
ghost use Rattle.world_engine.specs.Running.{state_in};
ghost use Rattle.player.specs.Moments.{moment_after};
ghost use Rattle.player.specs.Played.{StepTo, TakenStep};

use crate::plays::Plays;
use circuit::Step;
use report::{Counts, LineBuf};
use rp_io::{Sink, WriteFault, put_all};
use view_text::LastView;
use world_engine::World;

/// A world, and room for what its outputs show.
#[derive(Drop)]
pub struct WorldPlay {
    pub world: World,
    pub values: Vec<u8>,
    pub ghost room: { length values.items ≡ length (world_circuit world.plan world.marks).shown },
}

impl Plays<()> for WorldPlay {
    ghost use Rattle.circuit.specs.declared.Pos.{Pos};
    ghost use Rattle.report.specs.Trailers.{world_trailer};
    ghost use Rattle.player.specs.AllKeys.{world_keys};

    ghost Key = { Pos };

    ghost circuit = { λ w. world_circuit w.world.plan w.world.marks };

    ghost state = { λ w. state_in w.world };

    ghost counted = { λ w count. Unit {0} };

    ghost cost = { λ w key. 0 };

    ghost spent = { λ costs. 0 };

    ghost trailer = { λ w count. world_trailer };

    ghost ahead = { λ w. 2 ^ 62 - w.world.time };

    ghost note = { λ w fires. [] };

    ghost noted = { λ w. [] };

    fn time(&self) -> u64 {
        self.world.time()
    }

    fn step(&mut self, step: Step, shown: &mut LastView, _costs: &mut ()) {
        take_step(&mut self.world, step);
        self.world.view(&mut self.values);
        shown.set_all(&self.values);
    }

    fn put_noted<O: Sink>(&self, _line: &mut LineBuf, out: &mut O) -> Result<(), WriteFault> {
        put_all(out, &[])
    }

    fn counts(&self) -> Option<Counts> {
        None
    }

    ghost keys = { λ w. world_keys w.world.plan w.world.marks };
}

/// Takes a step.
fn take_step(world: &mut World, step: Step)
    requires early { world.old.time < 2 ^ 62 }
    requires taken { TakenStep (world_circuit world.old.plan world.old.marks) step }
    ensures plan { world.new.plan ≡ world.old.plan }
    ensures marks { world.new.marks ≡ world.old.marks }
    ensures time { world.new.time ≡ (moment_after world.old.time step).time }
    ensures soon { world.new.time ≤ world.old.time + 1 }
    ensures step { StepTo (world_circuit world.old.plan world.old.marks) step (state_in world.old) (state_in world.new) }
{
    match step {
        Step::Click { pos, click } => match world.click(pos, click) {
            Ok(()) => {}
            Err(_) => unreachable!(),
        },
        Step::Tick => world.tick(),
    }
}
