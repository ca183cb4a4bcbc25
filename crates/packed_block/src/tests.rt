ghost use Rattle.std.specs.Prelude.{◌≡◌, ◌<◌, ◌∷◌, [], ◌++◌, IfOk, OnOk, IsTrue, length, vec_len, replicate, slice_set, slice_index_or};
ghost use Rattle.block_table.specs.WrittenText.{is_listed};
ghost use Rattle.block_table.specs.declared.Block.TheVariants.{Air};

use super::*;
use block_table::parse_state;
use std::alloc::{AllocError, Global};
use std::test::Fail;

// A cell of these, as a block.
fn block_in(cells: &[PackedBlock], cell: usize) -> Block
    requires { cell < length cells.now }
    ensures value { result ≡ slice_index_or cells.now cell Air }
    ensures listed { IsTrue (is_listed result) }
{
    cells[cell].block()
}

// Sets a cell.
fn put(cells: &mut Vec<PackedBlock>, cell: usize, block: Block)
    requires inside { cell < vec_len cells.old }
    requires listed { IsTrue (is_listed block) }
    ensures { cells.new.items ≡ slice_set cells.old.items cell block }
{
    cells[cell] = PackedBlock::new(block);
}

// Cells of air.
fn cells_of_air(alloc: Global, count: usize) -> Result<Vec<PackedBlock>, AllocError>
    ensures { IfOk result (λ cells. cells.items ≡ replicate count Air) }
{
    vec![in alloc; PackedBlock::new(Block::Air); count]
}

// One cell more.
fn put_behind(cells: &mut Vec<PackedBlock>, block: Block) -> Result<(), AllocError>
    requires { IsTrue (is_listed block) }
    ensures { OnOk result (cells.new.items ≡ cells.old.items ++ block ∷ []) }
{
    cells.push(PackedBlock::new(block))?;
    Ok(())
}

// Equal cells.
fn copy(alloc: Global, cells: &[PackedBlock]) -> Result<Vec<PackedBlock>, AllocError>
    ensures { IfOk result (λ copy. copy.items ≡ cells.now) }
{
    Vec::from_slice(alloc, cells)
}

// Whether the block of a text comes back.
fn comes_back(text: &str) -> bool {
    match parse_state(text.as_bytes()) {
        Some(block) => PackedBlock::new(block).block() == block,
        None => false,
    }
}

#[test]
fn blocks_come_back(rt: HostRuntime) {
    let texts = [
        "air",
        "oak_leaves",
        "hopper",
        "warped_slab[type=double]",
        "warped_pressure_plate[powered=true]",
        "redstone_torch[lit=true]",
        "redstone_wall_torch[facing=east,lit=true]",
        "repeater[delay=4,facing=east,powered=true]",
        "comparator[facing=east,mode=subtract]",
        "lever[face=ceiling,facing=east,powered=true]",
        "redstone_block",
        "redstone_lamp[lit=true]",
        "iron_trapdoor[facing=east,half=top,powered=true]",
        "composter[level=8]",
        "water_cauldron[level=3]",
        "cake[bites=6]",
        "note_block[powered=true]",
        "redstone_wire[east=up,north=up,south=up,west=up,power=15]",
        "heavy_weighted_pressure_plate[power=15]",
        "warped_button[face=ceiling,facing=east,powered=true]",
    ];
    for text in texts {
        assert!(rt; comes_back(text), "at {text}");
    }
}

#[test]
fn cells_begin_with_zeros(rt: HostRuntime) {
    assert_eq!(rt; codes::packed(Block::Air), 0);
    assert_eq!(rt; size_of::<PackedBlock>(), 2);
}

#[test]
fn cells_are_blocks(rt: HostRuntime) -> Result<(), Fail> {
    let mut cells = cells_of_air(rt.alloc(), 2)?;
    put(&mut cells, 1, Block::RedstoneBlock);
    put_behind(&mut cells, Block::Lamp { lit: true })?;
    let same = copy(rt.alloc(), &cells)?;
    assert!(rt; block_in(&same, 0) == Block::Air);
    assert!(rt; block_in(&same, 1) == Block::RedstoneBlock);
    assert!(rt; block_in(&same, 2) == Block::Lamp { lit: true });
    Ok(())
}
