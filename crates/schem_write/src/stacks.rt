//! The items that give a container its strength.

ghost use Rattle.std.specs.Prelude.{◌≡◌, ◌≤◌, ◌<◌, IfOk};
ghost use Rattle.nbt.specs.Plain.{plain_tree};
ghost use Rattle.schem_write.specs.Code.{plain_list};
ghost use Rattle.schem_write.specs.Stacks.{items_for, stacks_of, stack_tree, stack_trees};

use crate::fields::{push, raw};
use nbt::{Tree, Trees};
use rp_text::NoMemory;
use std::alloc::Global;

/// How many items give this strength, which isn't 0, to a container of so many slots: the fewest that do.
pub fn items_for(slots: u8, strength: u8) -> u32
    ensures { result ≡ items_for slots strength }
{
    let least = u32::from(strength.saturating_sub(1)) * 64 * u32::from(slots);
    ((least + 13) / 14).max(1)
}

/// A stack of stone in a slot.
fn stack_tree(alloc: Global, slot: u8, count: u8) -> Result<Tree, NoMemory>
    requires slot { slot < 128 }
    requires count { count < 128 }
    ensures { IfOk result (λ tree. plain_tree tree ≡ stack_tree slot count) }
{
    let mut fields = Vec::new(alloc);
    push(&mut fields, b"Slot", Tree::Byte(slot as i8))?;
    push(
        &mut fields,
        b"id",
        Tree::Text(raw(alloc, b"minecraft:stone")?),
    )?;
    push(&mut fields, b"Count", Tree::Byte(count as i8))?;
    Ok(Tree::Compound(fields))
}

/// So many items in stacks of 64, and one stack of the rest.
pub fn stack_trees(alloc: Global, items: u32) -> Result<Trees, NoMemory>
    requires { items ≤ 8192 }
    ensures { IfOk result (λ trees. plain_list trees.items ≡ stack_trees 0 (stacks_of items)) }
{
    let mut trees = Vec::new(alloc);
    let mut slot = 0;
    let mut left = items;
    while left > 0 {
        let count = left.min(64);
        trees.push(stack_tree(alloc, slot, count as u8)?)?;
        left -= count;
        slot += 1;
    }
    Ok(trees)
}
