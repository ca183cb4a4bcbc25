//! Units in a row, and the clicks on them.

ghost use Rattle.std.specs.Prelude.{◌≡◌, ◌<◌, ◌≤◌, ◌*◌, IfOk, OnOk, length};
ghost use Rattle.build.specs.Plan.{IsWhole};
ghost use Rattle.script.specs.Acts.{ticks_in};
ghost use Rattle.script.specs.Clickable.{takes_click, is_wire_at};
ghost use Rattle.script.specs.Fit.{IsFit};
ghost use Rattle.generator.specs.UnitCells.{unit_block};
ghost use Rattle.generator.specs.Made.{in_unit, units_of, made_build, act_if, place_at, use_at, unit_acts, made_script, with_acts};

use crate::unit::unit_block;
use build::{Build, Pos};
use packed_block::PackedBlock;
use rp_text::NoMemory;
use script::{Act, Script};
use std::alloc::Global;

/// Makes n units in a row, and a script that clicks on some of their levers.
///
/// A unit is four wide, three high and ten deep. It has an AND gate of two levers, two torches that
/// do the same, a clock that nobody sees, and a comparator whose reading never changes, and four
/// lamps in all.
pub fn make(alloc: Global, n: u32) -> Result<(Build, Script), NoMemory>
    requires some { 1 ≤ n }
    requires few { n ≤ 4000 }
    ensures build { IfOk result (λ made. made.0 ≡ made_build n) }
    ensures script { IfOk result (λ made. made.1 ≡ made_script n) }

    // Each click is taken.
    ensures fit { IfOk result (λ made. IsFit (takes_click made.0) (is_wire_at made.0) made.1) }
    ensures whole { IfOk result (λ made. IsWhole made.0) }
{
    let build = make_build(alloc, n as u16)?;
    let script = make_script(alloc, n)?;
    Ok((build, script))
}

fn make_build(alloc: Global, n: u16) -> Result<Build, NoMemory>
    requires some { 1 ≤ n }
    requires few { n ≤ 4000 }
    ensures { IfOk result (λ build. build ≡ made_build n) }
{
    let blocks = make_blocks(alloc, n as usize)?;
    let mut build = Build::of_blocks(4 * n, 3, 10, 0, blocks);
    for unit in 0..n {
        build.set_output(place_at(u32::from(4 * unit + 1), 0, 9), 5)?;
    }
    Ok(build)
}

fn make_blocks(alloc: Global, n: usize) -> Result<Vec<PackedBlock>, NoMemory>
    requires some { 1 ≤ n }
    requires few { n ≤ 4000 }
    ensures { IfOk result (λ blocks. blocks.items ≡ units_of unit_block n) }
{
    Ok(
        (0..120 * n)
            .map(|cell| block_of_cell(n, cell))
            .collect(alloc)?,
    )
}

fn block_of_cell(n: usize, cell: usize) -> PackedBlock
    requires some { 1 ≤ n }
    requires few { n ≤ 4000 }
    ensures { result ≡ in_unit unit_block n cell }
{
    let width = 4 * n;
    let row = cell / width;
    PackedBlock::new(unit_block(cell % width % 4, row / 10, row % 10))
}

fn make_script(alloc: Global, n: u32) -> Result<Script, NoMemory>
    requires { n ≤ 4000 }
    ensures { IfOk result (λ script. script ≡ made_script n) }
{
    let mut script = Script::new(alloc);
    for unit in 0..n {
        push_clicks(&mut script, unit)?;
    }
    script.push(Act::Ticks { count: 8 })?;
    Ok(script)
}

/// Adds the clicks on a unit.
fn push_clicks(script: &mut Script, unit: u32) -> Result<(), NoMemory>
    requires unit { unit < 4000 }
    requires room { length script.old.acts ≤ 3 * unit }
    requires clicks { ticks_in script.old.acts ≡ 0 }
    ensures { OnOk result (script.new ≡ with_acts script.old (unit_acts unit)) }
{
    push_use_if(script, unit % 2 == 1, 4 * unit, 0, 0)?;
    push_use_if(script, unit / 2 % 2 == 1, 4 * unit + 2, 0, 0)?;
    push_use_if(script, unit % 2 == 1, 4 * unit + 1, 2, 5)?;
    Ok(())
}

/// Adds a click on the lever at a place, where one is wanted.
fn push_use_if(script: &mut Script, wanted: bool, x: u32, y: u32, z: u32) -> Result<(), NoMemory>
    requires room { length script.old.acts < 12000 }
    requires clicks { ticks_in script.old.acts ≡ 0 }
    requires x { x < 16000 }
    requires y { y < 3 }
    requires z { z < 10 }
    ensures { OnOk result (script.new ≡ with_acts script.old (act_if wanted (use_at x y z))) }
{
    if !wanted {
        return Ok(());
    }
    let pos = place_at(x, y, z);
    script.push(Act::Use { pos })
}

fn place_at(x: u32, y: u32, z: u32) -> Pos
    requires x { x < 16000 }
    requires y { y < 3 }
    requires z { z < 10 }
    ensures { result ≡ place_at x y z }
{
    Pos {
        x: x as i32,
        y: y as i32,
        z: z as i32,
    }
}
