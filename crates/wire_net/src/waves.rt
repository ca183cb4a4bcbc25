//! The right powers anew after some base powers have changed, by a falling and a rising wave.

ghost use Rattle.std.specs.Prelude.{◌≡◌, ℕ, ◌+◌, ◌-◌, ◌<◌, ◌≤◌, ◌⊎◌, ◌∷◌, ◌++◌, [], List, length, map, max, slice_index, vec_capacity, vec_len};
ghost use Rattle.wire_net.specs.Listed.{list_at};
ghost use Rattle.wire_net.specs.Net.{Cell, cell_at, feeders_of, greatest, power_under, IsRight, WasRight};
ghost use Rattle.wire_net.specs.Noted.{AreCells, InSome, IsNoted, Notes};
ghost use Rattle.wire_net.specs.WaveSteps.{AreBelow, count_from, Falling, Fell, Has, IsTurned, Nothing, Rising, Rose};

use crate::cell_lists::CellLists;
use crate::{Net, Waves, Work, power_of};
use number_rows::Rows;

// What it costs. A cell is looked at if it is a changed or a fallen one, or if a cell feeds it that
// fell or rose; a look reads the powers of its feeders. No cell falls twice, since a power of 0 has
// support. The rising wave takes the levels from the highest down, and a cell of one level lifts
// others to the next lower level at most, so no cell is lifted twice by it, and the cells that one
// feeds are looked at once, at the last power that it rose to: a listed cell that has risen since
// is passed over.
//
// So all depends on which cells fall. A cell that falls though its new right power is no less than
// its old one had no support from its base, so under the new powers a feeder with one more gives
// it that power. Before, this feeder had at most one more than the cell. If the feeder's power is
// as before, the cell had that support until the feeder fell too. So some cell above in that chain
// rises, and where base powers only fall or only rise, as they do after one component has
// changed, each cell that falls loses power. Then each cell that falls or rises has another power
// in the end, and no cell is looked at but these, those that they feed, and the changed ones.

/// Gives `powers` the right powers of the net anew, after base powers have changed at no other
/// cells than those of `changed`. It takes no memory. It looks at the changed cells, those whose
/// power changes, and those that these feed.
pub fn resolve<N: Net>(net: &N, powers: &mut [u8], changed: &[u32], work: &mut Work)
    requires made { work.old ≡ feeders_of (N.net net.now) }
    requires right { WasRight (N.net net.now) powers.old changed.now }
    requires cells { AreBelow (length (N.net net.now)) changed.now }
    ensures right { IsRight (N.net net.now) powers.new }
    ensures made { work.new ≡ work.old }
{
    resolve_noted(net, powers, changed, &mut work.waves);
}

/// As `resolve`. It lists each cell whose power changes.
pub fn resolve_noted<N: Net>(net: &N, powers: &mut [u8], changed: &[u32], waves: &mut Waves)
    requires made { waves.old.feeders ≡ feeders_of (N.net net.now) }
    requires right { WasRight (N.net net.now) powers.old changed.now }
    requires cells { AreBelow (length (N.net net.now)) changed.now }
    ensures right { IsRight (N.net net.now) powers.new }
    ensures made { waves.new.feeders ≡ waves.old.feeders }
    ensures noted { (cell : ℕ) → (slice_index powers.new cell ≡ slice_index powers.old cell) ⊎ IsNoted waves.new cell }
    ensures cells { AreCells (length (N.net net.now)) waves.new }
{
    waves.fallen.clear();
    waves.levels.clear();
    fall(
        net,
        &waves.feeders,
        &waves.fed,
        powers,
        changed,
        &mut waves.fallen,
    );
    start_rise(
        net,
        &waves.feeders,
        powers,
        changed,
        &waves.fallen,
        &mut waves.levels,
    );
    rise(net, &waves.feeders, &waves.fed, powers, &mut waves.levels);
}

// The falling wave: each cell whose power has lost its support falls to 0, and so do those that
// hung on it. It lists them in `fallen`.
fn fall<N: Net>(
    net: &N,
    feeders: &Rows,
    fed: &Rows,
    powers: &mut [u8],
    changed: &[u32],
    fallen: &mut Vec<u32>,
)
    requires lists { feeders.now ≡ feeders_of (N.net net.now) }
    requires turned { IsTurned feeders.now fed.now }
    requires right { WasRight (N.net net.now) powers.old changed.now }
    requires cells { AreBelow (length (N.net net.now)) changed.now }
    requires empty { fallen.old.items ≡ [] }
    requires room { length (N.net net.now) ≤ vec_capacity fallen.old }
    ensures falling { Falling (N.net net.now) changed.now powers.new fallen.new.items (length fallen.new.items) [] 0 }
    ensures noted { Notes powers.old (Has fallen.old.items) powers.new (Has fallen.new.items) }
    ensures room { length (N.net net.now) ≤ vec_capacity fallen.new }
{
    for cell in changed {
        let_fall(net, feeders, powers, *cell, fallen);
    }
    let mut next = 0;
    while next < fallen.len() {
        let from = fallen[next];
        next += 1;
        for cell in fed.row(from as usize) {
            let_fall(net, feeders, powers, *cell, fallen);
        }
    }
}

// Lets the cell fall to 0 if its power has no support, and lists it.
fn let_fall<N: Net>(net: &N, feeders: &Rows, powers: &mut [u8], cell: u32, fallen: &mut Vec<u32>)
    requires lists { feeders.now ≡ feeders_of (N.net net.now) }
    requires long { length powers.old ≡ length (N.net net.now) }
    requires in_net { cell < length (N.net net.now) }
    requires room { length fallen.old.items + count_from 1 powers.old ≤ vec_capacity fallen.old }
    ensures step { Fell (N.net net.now) powers.old fallen.old.items cell powers.new fallen.new.items }
    ensures room { vec_capacity fallen.old ≤ vec_capacity fallen.new }
{
    if powers[cell as usize] == 0 {
        return;
    }
    if needed(net, feeders, powers, cell) < powers[cell as usize] {
        powers[cell as usize] = 0;
        append(fallen, cell);
    }
}

// Starts the rising wave: the changed and the fallen cells take the power that they must have.
fn start_rise<N: Net>(
    net: &N,
    feeders: &Rows,
    powers: &mut [u8],
    changed: &[u32],
    fallen: &[u32],
    levels: &mut CellLists,
)
    requires lists { feeders.now ≡ feeders_of (N.net net.now) }
    requires falling { Falling (N.net net.now) changed.now powers.old fallen.now (length fallen.now) [] 0 }
    requires cells { AreBelow (length (N.net net.now)) changed.now }
    requires count { length levels.old.lists ≡ 16 }
    requires empty { (l : ℕ) → list_at levels.old.lists l ≡ [] }
    requires room { length (N.net net.now) ≤ levels.old.room }
    ensures rising { Rising (N.net net.now) powers.new levels.new.lists 15 0 Nothing }
    ensures noted { Notes powers.old (InSome levels.old.lists) powers.new (InSome levels.new.lists) }
    ensures room { levels.new.room ≡ levels.old.room }
{
    for cell in changed {
        lift(net, feeders, powers, *cell, levels);
    }
    for cell in fallen {
        lift(net, feeders, powers, *cell, levels);
    }
}

// The rising wave, from the highest level down: a cell that has risen lifts those that it feeds.
fn rise<N: Net>(net: &N, feeders: &Rows, fed: &Rows, powers: &mut [u8], levels: &mut CellLists)
    requires lists { feeders.now ≡ feeders_of (N.net net.now) }
    requires turned { IsTurned feeders.now fed.now }
    requires rising { Rising (N.net net.now) powers.old levels.old.lists 15 0 Nothing }
    requires room { length (N.net net.now) ≤ levels.old.room }
    ensures rising { Rising (N.net net.now) powers.new levels.new.lists 0 0 Nothing }
    ensures noted { Notes powers.old (InSome levels.old.lists) powers.new (InSome levels.new.lists) }
    ensures room { levels.new.room ≡ levels.old.room }
{
    let mut level = 15;
    while level > 0 {
        rise_from(net, feeders, fed, powers, levels, level);
        level -= 1;
    }
}

// One level of the rising wave.
fn rise_from<N: Net>(
    net: &N,
    feeders: &Rows,
    fed: &Rows,
    powers: &mut [u8],
    levels: &mut CellLists,
    level: u8,
)
    requires lists { feeders.now ≡ feeders_of (N.net net.now) }
    requires turned { IsTurned feeders.now fed.now }
    requires level { level < 16 }
    requires rising { Rising (N.net net.now) powers.old levels.old.lists level 0 Nothing }
    requires room { length (N.net net.now) ≤ levels.old.room }
    ensures rising { Rising (N.net net.now) powers.new levels.new.lists (level - 1) 0 Nothing }
    ensures noted { Notes powers.old (InSome levels.old.lists) powers.new (InSome levels.new.lists) }
    ensures room { levels.new.room ≡ levels.old.room }
{
    let mut next = 0;
    while next < levels.list(level as usize).len() {
        let from = levels.list(level as usize)[next];
        next += 1;
        if powers[from as usize] == level {
            for cell in fed.row(from as usize) {
                lift(net, feeders, powers, *cell, levels);
            }
        }
    }
}

// Lifts the cell to the power that it must have if it has less, and lists it at that level.
fn lift<N: Net>(net: &N, feeders: &Rows, powers: &mut [u8], cell: u32, levels: &mut CellLists)
    requires lists { feeders.now ≡ feeders_of (N.net net.now) }
    requires long { length powers.old ≡ length (N.net net.now) }
    requires in_net { cell < length (N.net net.now) }
    requires count { length levels.old.lists ≡ 16 }
    requires low { (e : ℕ) → slice_index powers.old e ≤ 15 }
    requires listed { (l : ℕ) → length (list_at levels.old.lists l) ≤ count_from l powers.old }
    requires room { length (N.net net.now) ≤ levels.old.room }
    ensures step { Rose (N.net net.now) powers.old levels.old.lists cell powers.new levels.new.lists }
    ensures room { levels.new.room ≡ levels.old.room }
{
    let power = needed(net, feeders, powers, cell);
    if powers[cell as usize] < power {
        powers[cell as usize] = power;
        levels.put(power as usize, cell);
    }
}

// The power that the cell must have under these powers.
fn needed<N: Net>(net: &N, feeders: &Rows, powers: &[u8], cell: u32) -> u8
    requires lists { feeders.now ≡ feeders_of (N.net net.now) }
    requires long { length powers.now ≡ length (N.net net.now) }
    requires in_net { cell < length (N.net net.now) }
    ensures { result ≡ power_under powers.now (cell_at (N.net net.now) cell) }
{
    power_of(net, powers, cell)
}

// Puts a cell at the end of a list that has room for it.
fn append(list: &mut Vec<u32>, cell: u32)
    requires { vec_len list.old < vec_capacity list.old }
    ensures items { list.new.items ≡ list.old.items ++ cell ∷ [] }
    ensures capacity { vec_capacity list.old ≤ vec_capacity list.new }
{
    match list.push(cell) {
        Ok(()) => {}
        Err(_) => unreachable!(),
    }
}
