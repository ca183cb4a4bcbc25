//! What can be clicked and marked.

ghost use Rattle.std.specs.Prelude.{◌≡◌};
ghost use Rattle.script.specs.Clickable.{block_takes, is_wire, takes_click, is_wire_at};

use block_table::Block;
use build::Build;
use circuit::{Click, Pos};

/// What the clicks and the marks of a script are about: a build, or a graph of one.
pub trait Targets {
    ghost use Rattle.std.specs.Prelude.{Bool};
    ghost use Rattle.circuit.specs.declared.Click.{Click};
    ghost use Rattle.circuit.specs.declared.Pos.{Pos};

    ghost takes: { Self → Pos → Click → Bool };

    ghost wire: { Self → Pos → Bool };

    /// Whether something at the place takes the click. It takes no memory.
    fn takes(&self, pos: Pos, click: Click) -> bool
        ensures { result ≡ takes self.now pos click };

    /// Whether there is a wire at the place. It takes no memory.
    fn wire(&self, pos: Pos) -> bool
        ensures { result ≡ wire self.now pos };
}

impl Targets for Build {
    ghost takes = { takes_click };

    ghost wire = { is_wire_at };

    fn takes(&self, pos: Pos, click: Click) -> bool {
        block_takes(self.at(pos), click)
    }

    fn wire(&self, pos: Pos) -> bool {
        is_wire(self.at(pos))
    }
}

// A lever and a button take `Use`, a plate `Press`, a plate and a weighted plate `Leave`, and a
// weighted plate a weight of 1 to 15.
fn block_takes(block: Block, click: Click) -> bool
    ensures { result ≡ block_takes block click }
{
    match (block, click) {
        (Block::Lever { .. } | Block::Button { .. }, Click::Use) => true,
        (Block::Plate { .. }, Click::Press) => true,
        (Block::Plate { .. } | Block::Weighted { .. }, Click::Leave) => true,
        (Block::Weighted { .. }, Click::Weigh { weight }) => 1 <= weight && weight <= 15,
        _ => false,
    }
}

fn is_wire(block: Block) -> bool
    ensures { result ≡ is_wire block }
{
    match block {
        Block::Wire { .. } => true,
        _ => false,
    }
}
