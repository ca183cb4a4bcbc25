//! Laws of what is made. Each is a function with nothing to do whose contract is the law.

ghost use Rattle.std.specs.Prelude.{◌≡◌, ◌<◌, ◌≤◌, ◌+◌, ◌*◌, ℕ, Some, codes};
ghost use Rattle.block_table.specs.BlockText.{block_of};
ghost use Rattle.build.specs.Plan.{IsWhole, block_at, output_at};
ghost use Rattle.script.specs.Clickable.{takes_click, is_wire_at};
ghost use Rattle.script.specs.Fit.{IsFit};
ghost use Rattle.generator.specs.UnitCells.{stone, white_concrete, unit_block, unit_level};
ghost use Rattle.generator.specs.Made.{place_at, made_build, made_script};

/// Unit i begins at x 4 i. Its places hold the blocks of a unit, and its comparator gives 5.
pub fn units_stand_in_a_row()
    ensures blocks { (n i x y z : ℕ) → i < n → x < 4 → y < 3 → z < 10 →
        block_at (made_build n) (place_at (4 * i + x) y z) ≡ unit_block x y z }
    ensures outputs { (n i x y z : ℕ) → i < n → x < 4 → y < 3 → z < 10 →
        output_at (made_build n) (place_at (4 * i + x) y z) ≡ unit_level x y z }
{}

/// The two solid blocks of a unit are those of their names.
pub fn solid_blocks_have_their_names()
    ensures stone { block_of (codes "stone") ≡ Some stone }
    ensures concrete { block_of (codes "white_concrete") ≡ Some white_concrete }
{}

/// Each click of a made script is taken by the made build.
pub fn made_scripts_fit()
    ensures { (n : ℕ) → IsFit (takes_click (made_build n)) (is_wire_at (made_build n)) (made_script n) }
{}

/// Made builds are builds.
pub fn made_builds_are_whole()
    ensures { (n : ℕ) → n ≤ 4000 → IsWhole (made_build n) }
{}
