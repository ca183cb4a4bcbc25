//! Block entities: the outputs of comparators and the items of containers.

ghost use Rattle.std.specs.Prelude.{◌≡◌, ◌||◌, ◌≤◌, not, replicate, All, IfOk, IfSome, OnOk};
ghost use Rattle.std.specs.Option.{option_map, option_copied};
ghost use Rattle.circuit.specs.declared.Pos.{Pos};
ghost use Rattle.nbt.specs.Plain.{plain_tree, plain_trees, plain_fields};
ghost use Rattle.nbt.specs.Named.{last_named};
ghost use Rattle.item_table.specs.Strength.{IsSized};
ghost use Rattle.build.specs.Marks.{is_marked};
ghost use Rattle.build.specs.Place.{same_place};
ghost use Rattle.build.specs.Plan.{volume};
ghost use Rattle.schematic.specs.Entities.{trees_in, items_in, place_in, entity_of, entities_of, counting, signal, is_level, level_in, text_in, amount_in, amount_of, item_with, item_of, items_of, is_wrong_signal, signal_fault, with_entity, with_all};
ghost use Rattle.schematic.specs.Code.{plain_found, plain_held, plain_entity, plain_entities};

use crate::BuildRefusal;
use crate::fields::{fields_in, holder, int_in, is_third, named};
use block_table::{Block, slots};
use build::{Build, Marks, Pos};
use item_table::{ItemCount, stack_size, strength};
use nbt::{Fields, Tree};
use rp_text::NoMemory;
use std::alloc::Global;

/// A block entity: its place, and its further data.
#[derive(Clone, Copy)]
pub struct Entity<'a> {
    pub pos: Pos,
    pub further: Option<&'a Fields>,
}

/// The trees of a list of compounds.
fn items_in(tree: Option<&Tree>) -> &[Tree]
    ensures { trees_in (plain_trees result.now) ≡ items_in (plain_found tree.entry) }
{
    match tree {
        Some(Tree::List { element: 10, items }) => items,
        _ => &[],
    }
}

fn place_in(tree: Option<&Tree>) -> Option<Pos>
    ensures { result ≡ place_in (plain_found tree.entry) }
{
    match tree {
        Some(Tree::Ints(numbers)) => match numbers.items.as_slice() {
            [x, y, z] => Some(Pos {
                x: *x,
                y: *y,
                z: *z,
            }),
            _ => None,
        },
        _ => None,
    }
}

/// The block entity that an entry of the list is, if it has a place.
fn entity_of<'a>(third: bool, fields: Option<&'a Fields>) -> Option<Entity<'a>>
    ensures { option_map plain_entity result ≡ entity_of third (plain_held fields.entry) }
{
    let pos = place_in(named("Pos", fields))?;
    let further = if third {
        fields_in(named("Data", fields))
    } else {
        fields
    };
    Some(Entity { pos, further })
}

/// The block entities of a file, in the order of their list.
#[tactic(auto, unfolding(crate::specs::Entities::entities_of))]
fn entities_of(alloc: Global, root: &Fields) -> Result<Vec<Entity<'_>>, NoMemory>
    ensures { IfOk result (λ entities. plain_entities entities.items ≡ entities_of (plain_fields root.now.items)) }
{
    let third = is_third(root);
    let mut entities = Vec::new(alloc);
    for item in items_in(named("BlockEntities", holder(root))) {
        if let Some(entity) = entity_of(third, fields_in(Some(item))) {
            entities.push(entity)?;
        }
    }
    Ok(entities)
}

/// Adds a place, and says whether it is new.
fn add_place(places: &mut Marks, pos: Pos) -> Result<bool, NoMemory>
    ensures added { IfOk result (λ added. added ≡ not (is_marked places.old pos)) }
    ensures places { IfOk result (λ added. (q : Pos) → is_marked places.new q ≡ (same_place q pos || is_marked places.old q)) }
{
    let known = places.contains(pos);
    places.add(pos)?;
    Ok(!known)
}

/// The block entities that count: of two at one place the last.
#[tactic(auto, unfolding(crate::specs::Entities::counting))]
pub fn counting(alloc: Global, root: &Fields) -> Result<Vec<Entity<'_>>, NoMemory>
    ensures { IfOk result (λ entities. plain_entities entities.items ≡ counting (plain_fields root.now.items)) }
{
    let entities = entities_of(alloc, root)?;
    let mut counting = Vec::new(alloc);
    let mut places = Marks::new(alloc);
    let mut index = entities.len();
    while index > 0 {
        index -= 1;
        let entity = entities[index];
        if add_place(&mut places, entity.pos)? {
            counting.push(entity)?;
        }
    }
    counting.reverse();
    Ok(counting)
}

/// A comparator's stored output, 0 where there is none.
#[tactic(auto, unfolding(crate::specs::Entities::signal))]
fn signal(further: Option<&Fields>) -> i32
    ensures { result ≡ signal (plain_held further.entry) }
{
    int_in(named("OutputSignal", further))
}

fn is_level(number: i32) -> bool
    ensures { result ≡ is_level number }
{
    0 <= number && number <= 15
}

fn level_in(number: i32) -> u8
    ensures value { result ≡ level_in number }
    ensures small { result ≤ 15 }
{
    if is_level(number) { number as u8 } else { 0 }
}

fn text_in(tree: Option<&Tree>) -> Option<&[u8]>
    ensures { option_copied result ≡ text_in (plain_found tree.entry) }
{
    match tree {
        Some(Tree::Text(raw)) => Some(&raw.items),
        _ => None,
    }
}

fn amount_in(tree: Option<&Tree>) -> Option<i32>
    ensures { result ≡ amount_in (plain_found tree.entry) }
{
    match tree {
        Some(Tree::Byte(number)) => Some(i32::from(*number)),
        Some(Tree::Short(number)) => Some(i32::from(*number)),
        Some(Tree::Int(number)) => Some(*number),
        _ => None,
    }
}

/// How many items there are of one kind.
fn amount_of(fields: Option<&Fields>) -> Option<i32>
    ensures { result ≡ amount_of (plain_held fields.entry) }
{
    match named("Count", fields) {
        Some(tree) => amount_in(Some(tree)),
        None => amount_in(named("count", fields)),
    }
}

fn item_with(name: Option<&[u8]>, amount: Option<i32>) -> Option<ItemCount>
    ensures value { result ≡ item_with (option_copied name.entry) amount }
    ensures sized { IfSome result IsSized }
{
    let name = name?;
    let amount = amount?;
    if amount < 1 {
        return None;
    }
    Some(ItemCount {
        count: amount as u32,
        size: stack_size(name),
    })
}

/// What an entry of a list of items counts.
#[tactic(auto, unfolding(crate::specs::Entities::item_of))]
fn item_of(fields: Option<&Fields>) -> Option<ItemCount>
    ensures value { result ≡ item_of (plain_held fields.entry) }
    ensures sized { IfSome result IsSized }
{
    item_with(text_in(named("id", fields)), amount_of(fields))
}

/// The items of a container.
#[tactic(auto, unfolding(crate::specs::Entities::items_of))]
fn items_of(alloc: Global, further: Option<&Fields>) -> Result<Vec<ItemCount>, NoMemory>
    ensures value { IfOk result (λ items. items.items ≡ items_of (plain_held further.entry)) }
    ensures sized { IfOk result (λ items. All IsSized items.items) }
{
    let mut items = Vec::new(alloc);
    for tree in items_in(named("Items", further)) {
        if let Some(item) = item_of(fields_in(Some(tree))) {
            items.push(item)?;
        }
    }
    Ok(items)
}

/// Whether the entity stands on a comparator and has an output that is none.
fn is_wrong_signal(build: &Build, entity: Entity) -> bool
    ensures { result ≡ is_wrong_signal build.now (plain_entity entity.entry) }
{
    match build.at(entity.pos) {
        Block::Comparator { .. } => !is_level(signal(entity.further)),
        _ => false,
    }
}

/// The place of the first entity with an output that is none.
pub fn signal_fault(build: &Build, entities: &[Entity]) -> Option<Pos>
    ensures { result ≡ signal_fault build.now (plain_entities entities.now) }
{
    for entity in entities {
        if is_wrong_signal(build, *entity) {
            return Some(entity.pos);
        }
    }
    None
}

/// Gives a block the level of an entity, if the block may have one.
fn put_level(alloc: Global, build: &mut Build, entity: Entity) -> Result<(), NoMemory>
    ensures { OnOk result (build.new ≡ with_entity build.old (plain_entity entity.entry)) }
{
    match build.at(entity.pos) {
        Block::Comparator { .. } => {
            build.set_output(entity.pos, level_in(signal(entity.further)))
        }
        Block::Container { name } => {
            let items = items_of(alloc, entity.further)?;
            let slots = slots(Block::Container { name });
            build.set_strength(entity.pos, strength(slots, &items))
        }
        _ => Ok(()),
    }
}

/// The build with the levels that the entities give, of which the first at a place counts.
pub fn with_levels(alloc: Global, build: Build, entities: &[Entity]) -> Result<Build, NoMemory>
    requires none { build.levels ≡ replicate (volume build) 0 }
    ensures { IfOk result (λ made. made ≡ with_all build (plain_entities entities.now)) }
{
    let mut build = build;
    let mut index = entities.len();
    while index > 0 {
        index -= 1;
        put_level(alloc, &mut build, entities[index])?;
    }
    Ok(build)
}
