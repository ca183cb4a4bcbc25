//! The palette of a file: the block of each number.

ghost use Rattle.std.specs.Prelude.{◌≡◌, ℤ, IfOk, IfSome, IsTrue, is_none};
ghost use Rattle.std.specs.BTreeMap.{get};
ghost use Rattle.std.specs.Ordering.{int_cmp};
ghost use Rattle.std.specs.Option.{option_copied};
ghost use Rattle.nbt.specs.Plain.{plain_field};
ghost use Rattle.block_table.specs.BlockText.{block_of};
ghost use Rattle.block_table.specs.WrittenText.{is_listed};
ghost use Rattle.schematic.specs.Palette.{number_of, clash, unknown_text, block_or_air, block_numbered};
ghost use Rattle.schematic.specs.Code.{plain_entries};

use block_table::{Block, parse_state};
use nbt::{Field, Tree};
use packed_block::PackedBlock;
use rp_text::NoMemory;
use std::alloc::Global;
use std::collections::BTreeMap;

/// From numbers to blocks.
pub type Blocks = BTreeMap<i64, PackedBlock>;

/// The number of an entry.
fn number_of(entry: &Field) -> i64
    ensures { result ≡ number_of (plain_field entry.now) }
{
    match entry.tree {
        Tree::Int(number) => i64::from(number),
        _ => 0,
    }
}

fn block_or_air(block: Option<Block>) -> PackedBlock
    requires { IfSome block (λ block. IsTrue (is_listed block)) }
    ensures { result ≡ block_or_air block }
{
    PackedBlock::new(block.unwrap_or(Block::Air))
}

/// The blocks by their numbers, or nothing where two entries have one number.
pub fn blocks_by_number(alloc: Global, entries: &[&Field]) -> Result<Option<Blocks>, NoMemory>
    ensures clash { IfOk result (λ blocks. clash (plain_entries entries.now) ≡ is_none blocks) }
    ensures blocks { IfOk result (λ found. IfSome found (λ blocks.
        (n : ℤ) → get int_cmp blocks n ≡ block_numbered (plain_entries entries.now) n)) }
{
    let mut blocks = BTreeMap::new(alloc);
    for entry in entries {
        let block = block_or_air(parse_state(&entry.name.items));
        let known = blocks.insert(number_of(entry), block)?;
        if known.is_some() {
            return Ok(None);
        }
    }
    Ok(Some(blocks))
}

/// The first text that means no block.
pub fn unknown_text<'a>(entries: &[&'a Field]) -> Option<&'a [u8]>
    ensures { option_copied result ≡ unknown_text (plain_entries entries.now) }
{
    for entry in entries {
        if parse_state(&entry.name.items).is_none() {
            return Some(&entry.name.items);
        }
    }
    None
}
