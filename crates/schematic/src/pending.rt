//! The pending ticks of a file: groups of five numbers.

ghost use Rattle.std.specs.Prelude.{◌≡◌, ◌≢◌, ◌<◌, ◌∷◌, ◌^◌, ◌&&◌, if◌then◌else◌, [], Some, not, length, option_map, IsTrue, IfSome, IfOk, IfErr};
ghost use Rattle.build.specs.Plan.{block_at, is_ticking, is_timely, is_pending};
ghost use Rattle.build.specs.Edits.{with_pending};
ghost use Rattle.schematic.specs.PendingTicks.{fives, tick_of, pending_fault, ticks_of, with_ticks};
ghost use Rattle.schematic.specs.File.{wrong_pending, plain_refusal, IsCause};

use crate::BuildRefusal;
use build::{Build, Pending, PendingRefusal, Pos};
use rp_text::NoMemory;

/// The tick that five numbers are.
fn tick_of(group: &[i32]) -> Option<Pending>
    ensures value { result ≡ tick_of group.now }
    ensures timely { IfSome result (λ tick. IsTrue (is_timely tick)) }
{
    match group {
        [x, y, z, due, priority] => {
            let (due, priority) = (*due, *priority);
            if 1 <= due && due <= 15 && 0 <= priority && priority <= 3 {
                let pos = Pos {
                    x: *x,
                    y: *y,
                    z: *z,
                };
                Some(Pending {
                    pos,
                    due: due as u8,
                    priority: priority as u8,
                })
            } else {
                None
            }
        }
        _ => None,
    }
}

/// The first group, and the numbers behind it.
fn first_group(numbers: &[i32]) -> (&[i32], &[i32])
    requires { length numbers.now ≢ 0 }
    ensures groups { fives numbers.now ≡ result.0.now ∷ fives result.1.now }
    ensures shorter { length result.1.now < length numbers.now }
{
    if numbers.len() < 5 {
        (numbers, &[])
    } else {
        numbers.split_at(5)
    }
}

/// Adds a tick, if its block waits for ticks and none is pending there; says whether it did.
fn add(build: &mut Build, tick: Pending) -> Result<bool, NoMemory>
    requires timely { IsTrue (is_timely tick) }
    ensures added { IfOk result (λ added. added ≡ (is_ticking (block_at build.old tick.pos) && not (is_pending build.old.pending tick.pos))) }
    ensures build { IfOk result (λ added. build.new ≡ (if added then with_pending build.old tick else build.old)) }
{
    match build.add_pending(tick) {
        Ok(()) => Ok(true),
        Err(PendingRefusal::NotTicking) => Ok(false),
        Err(PendingRefusal::Range) => Ok(false),
        Err(PendingRefusal::Twice) => Ok(false),
        Err(PendingRefusal::NoMemory) => Err(NoMemory),
    }
}

fn wrong_pending(group: u32) -> BuildRefusal
    ensures { plain_refusal result ≡ Some (wrong_pending group) }
{
    BuildRefusal::Pending { group }
}

/// Adds the pending ticks. The refusal has the number of the first group that isn't right.
#[tactic(auto, unfolding(crate::specs::PendingTicks::pending_fault, crate::specs::PendingTicks::ticks_of))]
pub fn with_all_pending(build: Build, numbers: &[i32]) -> Result<Build, BuildRefusal>
    requires none { build.pending ≡ [] }
    requires few { length numbers.now < 2 ^ 31 }
    ensures sound { IfOk result (λ made. pending_fault build numbers.now ≡ None) }
    ensures ticks { IfOk result (λ made. made ≡ with_ticks build (ticks_of numbers.now)) }
    ensures err { IfErr result (λ e. IsCause (plain_refusal e) (option_map wrong_pending (pending_fault build numbers.now))) }
{
    let mut build = build;
    let mut rest = numbers;
    let mut group = 0;
    while !rest.is_empty() {
        let (first, behind) = first_group(rest);
        let Some(tick) = tick_of(first) else {
            return Err(wrong_pending(group));
        };
        if !add(&mut build, tick)? {
            return Err(wrong_pending(group));
        }
        rest = behind;
        group += 1;
    }
    Ok(build)
}
