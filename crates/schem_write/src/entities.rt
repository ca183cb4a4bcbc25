//! Block entities: the outputs of comparators and the items of containers.

ghost use Rattle.std.specs.Prelude.{◌≡◌, ◌<◌, ◌≤◌, ◌∷◌, [], IfOk, IsTrue};
ghost use Rattle.std.specs.Option.{option_map};
ghost use Rattle.nbt.specs.Plain.{plain_tree, plain_field, plain_fields, compound};
ghost use Rattle.block_table.specs.WrittenText.{is_listed};
ghost use Rattle.build.specs.Plan.{block_at, entry, has_level, place_of, volume};
ghost use Rattle.schem_write.specs.BlockEntities.{level_field, level_in, id_of, further, entity_fields, entity_at, entities_of};

use crate::Layout;
use crate::fields::{push, raw};
use crate::stacks::{items_for, stack_trees};
use block_table::{Block, push_state, slots};
use build::{Build, Pos};
use nbt::{Field, Fields, IntList, Tree};
use rp_text::{NoMemory, Raw};
use std::alloc::Global;

/// What the level of a comparator or a container is written as: its output, or its items.
fn level_field(alloc: Global, block: Block, level: u8) -> Result<Option<Field>, NoMemory>
    requires listed { IsTrue (is_listed block) }
    requires small { level ≤ 15 }
    ensures { IfOk result (λ said. option_map plain_field said ≡ level_field block level) }
{
    let (name, tree) = match block {
        Block::Comparator { .. } => (raw(alloc, b"OutputSignal")?, Tree::Int(i32::from(level))),
        Block::Container { .. } => {
            let items = stack_trees(alloc, items_for(slots(block), level))?;
            (raw(alloc, b"Items")?, Tree::List { element: 10, items })
        }
        _ => return Ok(None),
    };
    Ok(Some(Field { name, tree }))
}

/// The name of the block entity of a comparator or a container. A container's text is its name alone.
fn id_of(alloc: Global, block: Block) -> Result<Raw, NoMemory>
    requires { IsTrue (is_listed block) }
    ensures { IfOk result (λ id. id.items.items ≡ id_of block) }
{
    match block {
        Block::Comparator { .. } => raw(alloc, b"minecraft:comparator"),
        Block::Container { .. } => {
            let mut items = Vec::new(alloc);
            push_state(block, &mut items)?;
            Ok(Raw { items })
        }
        _ => raw(alloc, b""),
    }
}

/// A place as three numbers.
fn place(alloc: Global, pos: Pos) -> Result<IntList, NoMemory>
    ensures { IfOk result (λ place. place.items.items ≡ pos.x ∷ (pos.y ∷ (pos.z ∷ []))) }
{
    let items = vec![in alloc; pos.x, pos.y, pos.z]?;
    Ok(IntList { items })
}

/// The further data of a block entity.
fn further(alloc: Global, layout: Layout, said: Field) -> Result<Fields, NoMemory>
    ensures { IfOk result (λ fields. plain_fields fields.items ≡ further layout (plain_field said)) }
{
    let mut fields = Vec::new(alloc);
    fields.push(said)?;
    match layout {
        Layout::Second => Ok(fields),
        Layout::Third => {
            let mut outer = Vec::new(alloc);
            push(&mut outer, b"Data", Tree::Compound(fields))?;
            Ok(outer)
        }
    }
}

/// The block entity of a comparator or a container that says this of itself.
fn entity(
    alloc: Global,
    layout: Layout,
    pos: Pos,
    block: Block,
    said: Field,
) -> Result<Tree, NoMemory>
    requires { IsTrue (is_listed block) }
    ensures { IfOk result (λ tree. plain_tree tree ≡ compound (entity_fields layout pos block (plain_field said))) }
{
    let mut fields = Vec::new(alloc);
    push(&mut fields, b"Pos", Tree::Ints(place(alloc, pos)?))?;
    push(&mut fields, b"Id", Tree::Text(id_of(alloc, block)?))?;
    let mut further = further(alloc, layout, said)?;
    fields.append(&mut further)?;
    Ok(Tree::Compound(fields))
}

/// The level of a comparator or a container, 0 for any other block.
fn level_at(build: &Build, pos: Pos) -> u8
    ensures value { result ≡ level_in (block_at build.now pos) (entry build.now build.now.levels 0 pos) }
    ensures small { result ≤ 15 }
{
    match build.at(pos) {
        Block::Comparator { .. } => build.output(pos),
        Block::Container { .. } => build.strength(pos).unwrap_or(0),
        _ => 0,
    }
}

/// The block entity that a place needs: a level of 0 needs none.
fn entity_at(
    alloc: Global,
    layout: Layout,
    build: &Build,
    pos: Pos,
) -> Result<Option<Tree>, NoMemory>
    ensures { IfOk result (λ tree. option_map plain_tree tree ≡ entity_at layout build.now pos) }
{
    let block = build.at(pos);
    let level = level_at(build, pos);
    if level == 0 {
        return Ok(None);
    }
    match level_field(alloc, block, level)? {
        Some(said) => Ok(Some(entity(alloc, layout, pos, block, said)?)),
        None => Ok(None),
    }
}

/// Whether a block may need a block entity.
fn has_level(block: Block) -> bool
    ensures { result ≡ has_level block }
{
    match block {
        Block::Comparator { .. } | Block::Container { .. } => true,
        Block::Air
        | Block::Inert { .. }
        | Block::Slab { .. }
        | Block::Wire { .. }
        | Block::Torch { .. }
        | Block::WallTorch { .. }
        | Block::Repeater { .. }
        | Block::Lever { .. }
        | Block::Button { .. }
        | Block::Plate { .. }
        | Block::RedstoneBlock
        | Block::Lamp { .. }
        | Block::Trapdoor { .. }
        | Block::Composter { .. }
        | Block::Cauldron { .. }
        | Block::Cake { .. }
        | Block::Weighted { .. }
        | Block::Note { .. } => false,
    }
}

/// The block entity that the place of a cell needs. The place is found only where the block may need one.
fn entity_in(
    alloc: Global,
    layout: Layout,
    build: &Build,
    cell: usize,
) -> Result<Option<Tree>, NoMemory>
    requires { cell < volume build.now }
    ensures { IfOk result (λ tree. option_map plain_tree tree ≡ entity_at layout build.now (place_of build.now cell)) }
{
    if has_level(build.block_in(cell)) {
        entity_at(alloc, layout, build, build.place(cell))
    } else {
        Ok(None)
    }
}

/// The block entities of a build, in order of places.
#[tactic(auto, unfolding(crate::specs::BlockEntities::entities_of))]
pub fn entities_of(alloc: Global, layout: Layout, build: &Build) -> Result<Tree, NoMemory>
    ensures { IfOk result (λ tree. plain_tree tree ≡ entities_of layout build.now) }
{
    let mut items = Vec::new(alloc);
    for cell in 0..build.cells() {
        if let Some(tree) = entity_in(alloc, layout, build, cell)? {
            items.push(tree)?;
        }
    }
    Ok(Tree::List { element: 10, items })
}
