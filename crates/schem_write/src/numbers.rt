//! The numbers of blocks in the palette, so that a text is made once for each block and not for each cell.

ghost use Rattle.std.specs.Prelude.{◌≡◌, ◌<◌, ℕ, List, None, IsTrue, IfOk, IfSome, slice_index_or};
ghost use Rattle.block_table.specs.WrittenText.{is_listed, state_text};
ghost use Rattle.packed_block.specs.Packed.{packed};
ghost use Rattle.schem_write.specs.PaletteTexts.{IsNumberOf, AreNumbers};

use block_table::Block;
use packed_block::PackedBlock;
use rp_text::NoMemory;
use std::alloc::Global;

/// The number of the block of each code, where it is known. A code is the two bytes of a block.
pub type Numbers = Vec<Option<usize>>;

// How many codes there are.
const CODES: usize = 65536;

// The number of a block's two bytes.
#[inline]
fn code_of(block: Block) -> u16
    requires { IsTrue (is_listed block) }
    ensures { result ≡ packed block }
{
    PackedBlock::new(block).code()
}

/// No number is known.
pub fn no_numbers(alloc: Global) -> Result<Numbers, NoMemory>
    ensures { (palette : List (List ℕ)) → IfOk result (λ numbers. AreNumbers palette numbers.items) }
{
    let numbers = vec![in alloc; None; CODES]?;
    Ok(numbers)
}

fn number_at(numbers: &[Option<usize>], code: usize) -> Option<usize>
    ensures { result ≡ slice_index_or numbers.now code None }
{
    match numbers.get(code) {
        Some(number) => *number,
        None => None,
    }
}

/// The number of a block, if it is known.
#[inline]
pub fn known_number(numbers: &[Option<usize>], block: Block) -> Option<usize>
    requires { IsTrue (is_listed block) }
    ensures { (palette : List (List ℕ)) → AreNumbers palette numbers.now → IfSome result (λ number. IsNumberOf palette (state_text block) number) }
{
    number_at(numbers, code_of(block) as usize)
}

/// Keeps the number of a block.
pub fn keep_number(numbers: &mut Numbers, block: Block, number: usize)
    requires { IsTrue (is_listed block) }
    ensures { (palette : List (List ℕ)) → AreNumbers palette numbers.old.items → IsNumberOf palette (state_text block) number → AreNumbers palette numbers.new.items }
{
    let code = code_of(block) as usize;
    if code < numbers.len() {
        numbers[code] = Some(number);
    }
}
