//! The palette of a build, and its cells as numbers of the palette.

ghost use Rattle.std.specs.Prelude.{◌≡◌, ◌≤◌, ◌*◌, ◌++◌, ◌^◌, ◌<◌, [], length, IfOk, OnOk, IsTrue};
ghost use Rattle.build.specs.Plan.{IsWhole};
ghost use Rattle.block_table.specs.WrittenText.{is_listed, state_text};
ghost use Rattle.schem_write.specs.PaletteTexts.{palette_of, cells_of, number_in, with_text, numbered_from, IsNumberOf, AreNumbers};
ghost use Rattle.schem_write.specs.Code.{texts_of, plain_pairs};

use crate::fields::push;
use crate::numbers::{Numbers, keep_number, known_number, no_numbers};
use crate::varint::push_varint;
use block_table::{Block, push_state};
use build::Build;
use indexmap::IndexSet;
use nbt::{Fields, Tree};
use rp_text::NoMemory;
use std::alloc::Global;

/// The texts of blocks, each once. The place of a text is its number.
pub type Palette = IndexSet<Vec<u8>>;

/// The number of a text, which is added to the palette if it isn't there.
fn number_of(alloc: Global, palette: &mut Palette, text: &[u8]) -> Result<usize, NoMemory>
    ensures number { IfOk result (λ number. number ≡ number_in (texts_of palette.old.keys) text.now) }
    ensures texts { OnOk result (texts_of palette.new.keys ≡ with_text (texts_of palette.old.keys) text.now) }
    ensures known { IfOk result (λ number. IsNumberOf (texts_of palette.new.keys) text.now number) }
{
    if let Some(number) = palette.get_index_of(text) {
        return Ok(number);
    }
    let (number, _) = palette.insert_full(Vec::from_slice(alloc, text)?)?;
    Ok(number)
}

/// The number of a block's text, whose text is made only where the number isn't known yet.
fn number_of_block(
    alloc: Global,
    palette: &mut Palette,
    text: &mut Vec<u8>,
    numbers: &mut Numbers,
    block: Block,
) -> Result<usize, NoMemory>
    requires right { AreNumbers (texts_of palette.old.keys) numbers.old.items }
    requires listed { IsTrue (is_listed block) }
    ensures number { IfOk result (λ number. number ≡ number_in (texts_of palette.old.keys) (state_text block)) }
    ensures texts { OnOk result (texts_of palette.new.keys ≡ with_text (texts_of palette.old.keys) (state_text block)) }
    ensures right { OnOk result (AreNumbers (texts_of palette.new.keys) numbers.new.items) }
{
    if let Some(number) = known_number(numbers, block) {
        return Ok(number);
    }
    text.clear();
    push_state(block, text)?;
    let number = number_of(alloc, palette, text)?;
    keep_number(numbers, block, number);
    Ok(number)
}

/// The palette of a build, and the bytes of its cells.
pub fn palette_and_cells(alloc: Global, build: &Build) -> Result<(Palette, Vec<u8>), NoMemory>
    ensures few { IfOk result (λ made. length made.0.keys ≤ 16777216) }
    ensures whole { OnOk result (IsWhole build.now) }
    ensures texts { IfOk result (λ made. texts_of made.0.keys ≡ palette_of build.now.blocks) }
    ensures cells { IfOk result (λ made. made.1.items ≡ cells_of build.now.blocks) }
{
    let mut palette = IndexSet::new(alloc);
    let mut cells = Vec::with_capacity(alloc, build.cells())?;
    let mut text = Vec::new(alloc);
    let mut numbers = no_numbers(alloc)?;
    for cell in 0..build.cells() {
        let block = build.block_in(cell);
        let number = number_of_block(alloc, &mut palette, &mut text, &mut numbers, block)?;
        push_varint(&mut cells, number)?;
    }
    Ok((palette, cells))
}

/// The texts of a palette with their numbers.
pub fn numbered(alloc: Global, palette: &[Vec<u8>]) -> Result<Fields, NoMemory>
    requires { length palette.now < 2 ^ 31 }
    ensures { IfOk result (λ fields. plain_pairs fields.items ≡ numbered_from 0 (texts_of palette.now)) }
{
    let mut fields = Vec::with_capacity(alloc, palette.len())?;
    for (number, text) in palette.iter().enumerate() {
        push(&mut fields, text, Tree::Int(number as i32))?;
    }
    Ok(fields)
}
