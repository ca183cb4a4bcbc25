//! The sides of a place.

ghost use Rattle.std.specs.Prelude.{◌≡◌};
ghost use Rattle.build.specs.Place.{beside};
ghost use Rattle.build.specs.Plan.{IsNear};

use block_table::Side;
use circuit::Pos;

/// The place beside a place.
pub fn beside(pos: Pos, side: Side) -> Pos
    requires { IsNear 3 pos }
    ensures { result ≡ beside side pos }
{
    match side {
        Side::Down => Pos {
            y: pos.y - 1,
            ..pos
        },
        Side::Up => Pos {
            y: pos.y + 1,
            ..pos
        },
        Side::North => Pos {
            z: pos.z - 1,
            ..pos
        },
        Side::South => Pos {
            z: pos.z + 1,
            ..pos
        },
        Side::West => Pos {
            x: pos.x - 1,
            ..pos
        },
        Side::East => Pos {
            x: pos.x + 1,
            ..pos
        },
    }
}
