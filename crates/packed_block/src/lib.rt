//! Blocks of the table in two bytes each.
#![tactic(auto)]

ghost use Rattle.std.specs.Prelude.{◌≡◌, IsTrue};
ghost use Rattle.block_table.specs.WrittenText.{is_listed};
ghost use Rattle.packed_block.specs.Packed.{packed};

mod codes;
#[cfg(test)]
mod tests;

use block_table::Block;
use std::marker::Model;

/// A block of the table in two bytes. Contracts see the block. The bytes of air are zeros.
#[derive(Clone, Copy)]
pub struct PackedBlock {
    code: u16,
}

impl Model for PackedBlock {
    ghost use Rattle.std.specs.Prelude.{ℕ, ◌≡◌, IsTrue};
    ghost use Rattle.std.proofs.Common.{ap};
    ghost use Rattle.block_table.specs.declared.Block.{Block};
    ghost use Rattle.block_table.specs.WrittenText.{is_listed};
    ghost use Rattle.packed_block.specs.Packed.{packed, unpacked};

    ghost Value = { Block };

    ghost view = { λ p. unpacked p.code };

    ghost invariant = { λ p. (packed (unpacked p.code) ≡ p.code) × IsTrue (is_listed (unpacked p.code)) };

    ghost inverse = { λ block. record { code = packed block } };

    ghost inverse_ok = { λ a h. ap (λ (code : ℕ). record { code = code }) h.0 };
}

impl PackedBlock {
    /// Packs a block that some text means.
    #[tactic(auto, using(crate::proofs::RoundTrip::comes_back))]
    pub fn new(block: Block) -> PackedBlock
        requires listed { IsTrue (is_listed block) }
        ensures { result ≡ block }
    {
        PackedBlock {
            code: codes::packed(block),
        }
    }

    /// The block that was packed.
    #[inline(always)]
    pub fn block(self) -> Block
        ensures value { result ≡ self }
        ensures listed { IsTrue (is_listed result) }
    {
        codes::unpacked(self.code)
    }

    /// The two bytes as a number, by which blocks are told apart.
    #[inline(always)]
    pub fn code(self) -> u16
        ensures { result ≡ packed self }
    {
        self.code
    }
}
