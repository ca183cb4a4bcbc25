//! The cells of a file: varints, each the number of a block.

ghost use Rattle.std.specs.Prelude.{◌≡◌, ◌<◌, ◌≤◌, ◌*◌, ◌^◌, ℕ, pos, Some, None, length, nat_lt, position, option_map, IfOk, IfErr, IfSome, IsNone};
ghost use Rattle.std.specs.BTreeMap.{get};
ghost use Rattle.std.specs.Ordering.{int_cmp};
ghost use Rattle.schematic.specs.Cells.{value_of, first_blocks, varints, cells_fault, blocks_of, IsFirst, HasNoFirst};
ghost use Rattle.schematic.specs.File.{wrong_cells, plain_refusal, IsCause};

use crate::BuildRefusal;
use crate::palette::Blocks;
use packed_block::PackedBlock;
use rp_text::NoMemory;
use std::alloc::Global;

/// The value of the bytes of a varint.
#[tactic(auto, using(crate::proofs::Varints::value_small))]
fn value_of(varint: &[u8]) -> u64
    requires { length varint.now ≤ 5 }
    ensures { result ≡ value_of varint.now }
{
    match varint {
        [] => 0,
        [byte, rest @ ..] => u64::from(*byte % 128) + 128 * value_of(rest),
    }
}

fn place_of_end(cells: &[u8]) -> Option<usize>
    ensures { result ≡ position (λ b. nat_lt b 128) cells.now }
{
    cells.iter().position(|b| *b < 128)
}

/// The number of the first varint, and the bytes behind it.
fn first_number(cells: &[u8]) -> Option<(u64, &[u8])>
    ensures small { IfSome result (λ r. r.0 < 2 ^ 35) }
    ensures some { IfSome result (λ r. IsFirst cells.now r.0 r.1.now) }
    ensures none { IsNone result → HasNoFirst (varints cells.now) }
{
    let (byte, behind) = cells.split_first()?;
    if *byte < 128 {
        Some((u64::from(*byte), behind))
    } else {
        first_long_number(cells)
    }
}

/// The same, for a varint of any number of bytes.
fn first_long_number(cells: &[u8]) -> Option<(u64, &[u8])>
    ensures small { IfSome result (λ r. r.0 < 2 ^ 35) }
    ensures some { IfSome result (λ r. IsFirst cells.now r.0 r.1.now) }
    ensures none { IsNone result → HasNoFirst (varints cells.now) }
{
    let end = place_of_end(cells)?;
    if end >= 5 {
        return None;
    }
    Some((value_of(&cells[..end + 1]), &cells[end + 1..]))
}

fn wrong_cells(place: usize) -> BuildRefusal
    requires { place < 2 ^ 64 }
    ensures { plain_refusal result ≡ Some (wrong_cells place) }
{
    BuildRefusal::Data {
        place: place as u64,
    }
}

/// The block of a number, which is looked up in the map.
fn block_in(blocks: &Blocks, number: u64) -> Option<PackedBlock>
    requires { number < 2 ^ 35 }
    ensures { result ≡ get int_cmp blocks.now (pos number) }
{
    let number = number as i64;
    blocks.get(&number).copied()
}

/// The blocks of the numbers from 0 on, for as many numbers as the palette has.
fn first_blocks(alloc: Global, blocks: &Blocks) -> Result<Vec<Option<PackedBlock>>, NoMemory>
    ensures { IfOk result (λ first. first.items ≡ first_blocks (λ n. get int_cmp blocks.now n) (length first.items)) }
{
    let count = u32::try_from(blocks.len()).unwrap_or(u32::MAX);
    let mut first = Vec::with_capacity(alloc, count as usize)?;
    for number in 0..count {
        first.push(block_in(blocks, u64::from(number)))?;
    }
    Ok(first)
}

/// The block of a number.
fn block_numbered(
    blocks: &Blocks,
    first: &[Option<PackedBlock>],
    number: u64,
) -> Option<PackedBlock>
    requires small { number < 2 ^ 35 }
    requires first { first.now ≡ first_blocks (λ n. get int_cmp blocks.now n) (length first.now) }
    ensures { result ≡ get int_cmp blocks.now (pos number) }
{
    match first.get(number as usize) {
        Some(block) => *block,
        None => block_in(blocks, number),
    }
}

/// The blocks of so many cells, where those of the first numbers are at hand.
#[tactic(auto, unfolding(crate::specs::Cells::cells_fault, crate::specs::Cells::blocks_of))]
fn blocks_with(
    alloc: Global,
    blocks: &Blocks,
    first: &[Option<PackedBlock>],
    volume: usize,
    cells: &[u8],
) -> Result<Vec<PackedBlock>, BuildRefusal>
    requires first { first.now ≡ first_blocks (λ n. get int_cmp blocks.now n) (length first.now) }
    ensures sound { IfOk result (λ built. cells_fault (λ n. get int_cmp blocks.now n) volume cells.now ≡ None) }
    ensures blocks { IfOk result (λ built. built.items ≡ blocks_of (λ n. get int_cmp blocks.now n) cells.now) }
    ensures count { IfOk result (λ built. length built.items ≡ volume) }
    ensures err { IfErr result (λ e. IsCause (plain_refusal e)
        (option_map wrong_cells (cells_fault (λ n. get int_cmp blocks.now n) volume cells.now))) }
{
    let mut built = Vec::with_capacity(alloc, volume.min(cells.len()))?;
    let mut rest = cells;
    for _ in 0..volume {
        let Some((number, behind)) = first_number(rest) else {
            return Err(wrong_cells(cells.len() - rest.len()));
        };
        let Some(block) = block_numbered(blocks, first, number) else {
            return Err(wrong_cells(cells.len() - rest.len()));
        };
        built.push(block)?;
        rest = behind;
    }
    if rest.is_empty() {
        Ok(built)
    } else {
        Err(wrong_cells(cells.len() - rest.len()))
    }
}

/// The blocks of so many cells. The refusal has the place of the first fault.
pub fn blocks_of(
    alloc: Global,
    blocks: &Blocks,
    volume: usize,
    cells: &[u8],
) -> Result<Vec<PackedBlock>, BuildRefusal>
    ensures sound { IfOk result (λ built. cells_fault (λ n. get int_cmp blocks.now n) volume cells.now ≡ None) }
    ensures blocks { IfOk result (λ built. built.items ≡ blocks_of (λ n. get int_cmp blocks.now n) cells.now) }
    ensures count { IfOk result (λ built. length built.items ≡ volume) }
    ensures err { IfErr result (λ e. IsCause (plain_refusal e)
        (option_map wrong_cells (cells_fault (λ n. get int_cmp blocks.now n) volume cells.now))) }
{
    let first = first_blocks(alloc, blocks)?;
    blocks_with(alloc, blocks, &first, volume, cells)
}
