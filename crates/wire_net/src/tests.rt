//! Nets written by hand, solved whole and after each change.

ghost use Rattle.std.specs.Prelude.{◌≡◌, ◌<◌, ◌^◌, ℕ, length, IfOk, vec_len};
ghost use Rattle.wire_net.specs.HandNet.{hand_net, hand_bounded, hand_closed};
ghost use Rattle.wire_net.specs.Net.{feeders_of, IsRight};

use super::*;
use std::process::Abort;
use std::test::Fail;

// A net whose cells have two feeders each. A cell that feeds itself does so in vain.
#[derive(Drop)]
struct HandNet {
    bases: Vec<u8>,
    first: &'static [u32],
    second: &'static [u32],
    ghost short: { vec_len bases < 2 ^ 32 },
    ghost firsts: { length first.now ≡ vec_len bases },
    ghost seconds: { length second.now ≡ vec_len bases },
}

impl Net for HandNet {
    ghost net = { λ s. hand_net s.bases.items s.first.now s.second.now };

    ghost bounded = { λ s. hand_bounded s.bases.items s.first.now s.second.now };

    ghost closed = { λ s. hand_closed s.bases.items s.first.now s.second.now };

    fn cells(&self) -> u32 {
        self.bases.len() as u32
    }

    fn base(&self, cell: u32) -> u8 {
        self.bases[cell as usize].min(15)
    }

    fn feeder_count(&self, _cell: u32) -> u8 {
        2
    }

    fn feeder(&self, cell: u32, index: u8) -> u32 {
        let count = self.bases.len() as u32;
        if index == 0 {
            self.first[cell as usize] % count
        } else {
            self.second[cell as usize] % count
        }
    }
}

// Changes one base power, and finds the right powers anew.
fn change(net: &mut HandNet, cell: u32, base: u8, powers: &mut [u8], work: &mut Work)
    requires right { IsRight (hand_net net.old.bases.items net.old.first.now net.old.second.now) powers.old }
    requires made { work.old ≡ feeders_of (hand_net net.old.bases.items net.old.first.now net.old.second.now) }
    ensures right { IsRight (hand_net net.new.bases.items net.new.first.now net.new.second.now) powers.new }
    ensures made { work.new ≡ feeders_of (hand_net net.new.bases.items net.new.first.now net.new.second.now) }
{
    if (cell as usize) < net.bases.len() {
        net.bases[cell as usize] = base;
        resolve(&*net, powers, &[cell], work);
    }
}

// Each change of a base power and the powers after it, from a net with no base power.
fn check(
    rt: &impl Abort,
    alloc: Global,
    first: &'static [u32],
    second: &'static [u32],
    changes: &[(u32, u8, &[u8])],
) -> Result<(), Fail>
    requires short { length first.now < 2 ^ 32 }
    requires same { length second.now ≡ length first.now }
{
    let bases = vec![in alloc; 0u8; first.len()]?;
    let mut net = HandNet {
        bases,
        first,
        second,
    };
    let mut powers = solve(alloc, &net)?;
    let mut work = Work::new(alloc, &net)?;
    for (cell, base, want) in changes {
        change(&mut net, *cell, *base, &mut powers, &mut work);
        assert_eq!(rt; powers.as_slice(), *want);
        let whole = solve(alloc, &net)?;
        assert_eq!(rt; whole.as_slice(), *want);
    }
    Ok(())
}

#[test]
fn wire_length(rt: HostRuntime) -> Result<(), Fail> {
    check(
        &rt,
        rt.alloc(),
        &[0, 0, 1, 2, 3, 4, 5, 6, 7, 8, 9, 10, 11, 12, 13, 14],
        &[1, 2, 3, 4, 5, 6, 7, 8, 9, 10, 11, 12, 13, 14, 15, 15],
        &[
            (
                0,
                15,
                &[15, 14, 13, 12, 11, 10, 9, 8, 7, 6, 5, 4, 3, 2, 1, 0],
            ),
            (0, 0, &[0; 16]),
            (
                15,
                15,
                &[0, 1, 2, 3, 4, 5, 6, 7, 8, 9, 10, 11, 12, 13, 14, 15],
            ),
        ],
    )
}

#[test]
fn power_goes_up_over_glass(rt: HostRuntime) -> Result<(), Fail> {
    check(
        &rt,
        rt.alloc(),
        &[0, 0],
        &[0, 1],
        &[(0, 15, &[15, 14]), (0, 0, &[0, 0]), (1, 15, &[0, 15])],
    )
}

#[test]
fn ring_falls_and_rises(rt: HostRuntime) -> Result<(), Fail> {
    check(
        &rt,
        rt.alloc(),
        &[5, 0, 1, 2, 3, 4],
        &[1, 2, 3, 4, 5, 0],
        &[
            (0, 15, &[15, 14, 13, 12, 13, 14]),
            (3, 13, &[15, 14, 13, 13, 13, 14]),
            (0, 0, &[10, 11, 12, 13, 12, 11]),
            (3, 0, &[0, 0, 0, 0, 0, 0]),
            (1, 1, &[0, 1, 0, 0, 0, 0]),
            (4, 9, &[7, 6, 7, 8, 9, 8]),
        ],
    )
}
