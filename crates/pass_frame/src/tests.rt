//! Passes that find nothing to do, composed.

ghost use Rattle.std.specs.Prelude.{◌≡◌};

use super::*;
use std::test::Fail;

// A pass without steps, which counts its runs.
#[derive(Drop)]
struct Idle {
    runs: u32,
}

impl Pass for Idle {
    ghost step = { λ old new. ⊥ };

    ghost turn = { λ old new. new ≡ old };

    fn run(&mut self, _graph: &mut Graph) -> Result<bool, NoMemory> {
        self.runs = self.runs.saturating_add(1);
        Ok(false)
    }

    ghost keeps_sound = { λ old new sound step. absurd step };

    ghost refines = { λ old new sound step. absurd step };

    ghost falls = { λ old new sound step. absurd step };
}

// A pass that finds no memory.
#[derive(Drop)]
struct Starved;

impl Pass for Starved {
    ghost step = { λ old new. ⊥ };

    ghost turn = { λ old new. new ≡ old };

    fn run(&mut self, _graph: &mut Graph) -> Result<bool, NoMemory> {
        Err(NoMemory)
    }

    ghost keeps_sound = { λ old new sound step. absurd step };

    ghost refines = { λ old new sound step. absurd step };

    ghost falls = { λ old new sound step. absurd step };
}

fn run_on_nothing<P: Pass>(rt: &HostRuntime, pass: &mut P) -> Result<bool, NoMemory> {
    let mut graph = Graph::new(rt.alloc());
    pass.run(&mut graph)
}

#[test]
fn each_part_runs(rt: HostRuntime) -> Result<(), Fail> {
    let mut both = Then {
        first: Idle { runs: 0 },
        second: Stable {
            pass: Idle { runs: 0 },
        },
    };
    assert!(rt; !run_on_nothing(&rt, &mut both)?);
    assert_eq!(rt; (both.first.runs, both.second.pass.runs), (1, 1));
    Ok(())
}

#[test]
fn a_pass_runs_where_its_flag_is_on(rt: HostRuntime) -> Result<(), Fail> {
    let mut on = When::<Idle, true> {
        pass: Idle { runs: 0 },
    };
    let mut off = When::<Idle, false> {
        pass: Idle { runs: 0 },
    };
    assert!(rt; !run_on_nothing(&rt, &mut on)?);
    assert!(rt; !run_on_nothing(&rt, &mut off)?);
    assert_eq!(rt; (on.pass.runs, off.pass.runs), (1, 0));
    Ok(())
}

#[test]
fn want_of_memory_ends_a_run(rt: HostRuntime) {
    let mut first = Then {
        first: Starved,
        second: Idle { runs: 0 },
    };
    assert!(rt; run_on_nothing(&rt, &mut first).is_err());
    assert_eq!(rt; first.second.runs, 0);
    let mut stable = Stable { pass: Starved };
    assert!(rt; run_on_nothing(&rt, &mut stable).is_err());
}
