//! The right powers of a net of cells: each cell's power is the greatest of 0, its base power,
//! and the power of each cell that feeds it less one.
#![tactic(auto)]

ghost use Rattle.std.specs.Prelude.{◌≡◌, ℕ, ◌+◌, ◌<◌, ◌≤◌, List, length, false, slice_index, IfOk};
ghost use Rattle.wire_net.specs.Sweeps.{IsBetween};
ghost use Rattle.wire_net.specs.Net.{Cell, cell_at, power_under, IsRight, IsBounded, IsClosed, IsGreatestReached, right_powers};

mod cell_lists;
#[cfg(test)]
mod tests;
mod waves;
mod work;

use rp_text::NoMemory;
use std::alloc::Global;
pub use waves::{resolve, resolve_noted};
pub use work::{Waves, Work};

/// A net of cells, which are numbered from 0. Each has a base power, and cells that feed it.
///
/// No base power is above 15, and each feeder is a cell of the net.
pub trait Net {
    ghost net: { Self → List Cell };

    /// How many cells there are.
    fn cells(&self) -> u32
        ensures { result ≡ length (net self.now) };

    /// The power that the cell has without its feeders.
    fn base(&self, cell: u32) -> u8
        requires { cell < length (net self.now) }
        ensures { result ≡ (cell_at (net self.now) cell).base };

    /// How many feeders the cell has.
    fn feeder_count(&self, cell: u32) -> u8
        requires { cell < length (net self.now) }
        ensures { result ≡ length (cell_at (net self.now) cell).feeders };

    /// The feeder of the cell that has this index among its feeders.
    fn feeder(&self, cell: u32, index: u8) -> u32
        requires in_net { cell < length (net self.now) }
        requires in_cell { index < length (cell_at (net self.now) cell).feeders }
        ensures { result ≡ slice_index (cell_at (net self.now) cell).feeders index };

    ghost bounded: { (s : Self) → IsBounded (net s) };

    ghost closed: { (s : Self) → IsClosed (net s) };
}

/// The right powers of the net, a power for each cell.
pub fn solve<N: Net>(alloc: Global, net: &N) -> Result<Vec<u8>, NoMemory>
    ensures { IfOk result (λ powers. IsRight (N.net net.now) powers.items) }
{
    let mut powers = vec![in alloc; 0u8; net.cells() as usize]?;
    solve_into(net, &mut powers);
    Ok(powers)
}

/// Writes the right powers of the net over `powers`, whatever stood there.
pub fn solve_into<N: Net>(net: &N, powers: &mut [u8])
    requires { length powers.old ≡ length (N.net net.now) }
    ensures { IsRight (N.net net.now) powers.new }
{
    powers.fill(0);
    for _round in 0..15u8 {
        if !sweep(net, powers) {
            return;
        }
    }
}

// Gives each cell in turn the power that it must have under the powers at that time. Says whether
// a power changed.
fn sweep<N: Net>(net: &N, powers: &mut [u8]) -> bool
    requires { length powers.old ≡ length (N.net net.now) }
    ensures round { (k : ℕ) → IsBetween (N.net net.now) k 0 powers.old → IsBetween (N.net net.now) (k + 1) 0 powers.new }
    ensures right { result ≡ false → IsRight (N.net net.now) powers.new }
{
    let mut changes = false;
    for cell in 0..net.cells() {
        let power = power_of(net, powers, cell);
        if power != powers[cell as usize] {
            powers[cell as usize] = power;
            changes = true;
        }
    }
    changes
}

// The power that the cell must have under these powers.
fn power_of<N: Net>(net: &N, powers: &[u8], cell: u32) -> u8
    requires long { length powers.now ≡ length (N.net net.now) }
    requires in_net { cell < length (N.net net.now) }
    ensures { result ≡ power_under powers.now (cell_at (N.net net.now) cell) }
{
    let mut power = net.base(cell);
    for index in 0..net.feeder_count(cell) {
        let feeder = net.feeder(cell, index);
        power = power.max(powers[feeder as usize].saturating_sub(1));
    }
    power
}

/// Each net has exactly one list of right powers.
pub fn exactly_one_is_right()
    ensures exists { (net : List Cell) → IsBounded net → IsRight net (right_powers net) }
    ensures unique { (net : List Cell) (p q : List ℕ) → IsBounded net → IsRight net p → IsRight net q → p ≡ q }
{}

/// A right power is the greatest of 0 and, over all cells that the cell reaches from feeder to
/// feeder, the base power of that cell less its distance, the least number of steps to it.
pub fn powers_by_distance()
    ensures { (net : List Cell) (powers : List ℕ) → IsBounded net → IsRight net powers → (w : ℕ) → IsGreatestReached net w (slice_index powers w) }
{}
