//! What stands in one unit.

ghost use Rattle.std.specs.Prelude.{◌≡◌, find};
ghost use Rattle.generator.specs.UnitCells.{stands_at, block_among, unit_block};

use block_table::{Block, Face, Side, WireSide};

/// A block at x, y and z of a unit.
type UnitCell = (usize, usize, usize, Block);

const LEVER_ON_A_WALL: Block = Block::Lever {
    face: Face::Wall,
    facing: Side::North,
    powered: false,
};

const LEVER_ON_THE_FLOOR: Block = Block::Lever {
    face: Face::Floor,
    facing: Side::North,
    powered: false,
};

const WHITE_CONCRETE: Block = Block::Inert { name: 118 };

const STONE: Block = Block::Inert { name: 36 };

const WIRE_OF_THE_GATE: Block = Block::Wire {
    north: WireSide::Absent,
    east: WireSide::Side,
    south: WireSide::Absent,
    west: WireSide::Side,
    power: 15,
};

const WIRE_OF_THE_CLOCK: Block = Block::Wire {
    north: WireSide::Absent,
    east: WireSide::Absent,
    south: WireSide::Absent,
    west: WireSide::Absent,
    power: 0,
};

const TORCH: Block = Block::Torch { lit: true };

const TORCH_OF_THE_GATE: Block = Block::WallTorch {
    facing: Side::South,
    lit: false,
};

const TORCH_TO_THE_WEST: Block = Block::WallTorch {
    facing: Side::West,
    lit: true,
};

const TORCH_TO_THE_EAST: Block = Block::WallTorch {
    facing: Side::East,
    lit: true,
};

const LIT_LAMP: Block = Block::Lamp { lit: true };

const DARK_LAMP: Block = Block::Lamp { lit: false };

const COMPOSTER: Block = Block::Composter { level: 5 };

const COMPARATOR: Block = Block::Comparator {
    facing: Side::West,
    subtract: false,
};

/// A gate, twins, a clock, and a comparator that reads a composter. All else is air.
static UNIT: [UnitCell; 23] = [
    (0, 0, 0, LEVER_ON_A_WALL),
    (2, 0, 0, LEVER_ON_A_WALL),
    (0, 0, 1, WHITE_CONCRETE),
    (1, 0, 1, WHITE_CONCRETE),
    (2, 0, 1, WHITE_CONCRETE),
    (1, 0, 2, TORCH_OF_THE_GATE),
    (1, 0, 3, DARK_LAMP),
    (0, 1, 1, TORCH),
    (2, 1, 1, TORCH),
    (1, 1, 1, WIRE_OF_THE_GATE),
    (0, 0, 5, LIT_LAMP),
    (2, 0, 5, LIT_LAMP),
    (0, 1, 5, TORCH_TO_THE_WEST),
    (1, 1, 5, STONE),
    (2, 1, 5, TORCH_TO_THE_EAST),
    (1, 2, 5, LEVER_ON_THE_FLOOR),
    (0, 1, 7, STONE),
    (1, 1, 7, TORCH_TO_THE_EAST),
    (0, 2, 7, WIRE_OF_THE_CLOCK),
    (1, 2, 7, STONE),
    (0, 0, 9, COMPOSTER),
    (1, 0, 9, COMPARATOR),
    (2, 0, 9, LIT_LAMP),
];

/// What a unit holds at x, y and z.
pub(crate) fn unit_block(x: usize, y: usize, z: usize) -> Block
    ensures { result ≡ unit_block x y z }
{
    block_among(&UNIT, x, y, z)
}

fn block_among(cells: &[UnitCell], x: usize, y: usize, z: usize) -> Block
    ensures { result ≡ block_among cells.now x y z }
{
    cell_at(cells, x, y, z).map_or(Block::Air, |cell| cell.3)
}

fn cell_at(cells: &[UnitCell], x: usize, y: usize, z: usize) -> Option<UnitCell>
    ensures { result ≡ find (stands_at x y z) cells.now }
{
    cells.iter().copied().find(|cell| stands_at(cell, x, y, z))
}

fn stands_at(cell: &UnitCell, x: usize, y: usize, z: usize) -> bool
    ensures { result ≡ stands_at x y z cell.now }
{
    cell.0 == x && cell.1 == y && cell.2 == z
}
