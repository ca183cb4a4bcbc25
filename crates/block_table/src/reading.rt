//! Blocks from texts.

ghost use Rattle.std.specs.Prelude.{◌≡◌, ◌<◌, ◌+◌, IfSome, IsTrue, length, map};
ghost use Rattle.block_table.specs.StateText.{properties_in, IsFormed};
ghost use Rattle.block_table.specs.BlockText.{face_of, facing_of, wire_side_of, slab_half_of, off_or_on, on_or_off, count_in, power_of, cauldron_level, wire_of, torch_of, wall_torch_of, repeater_of, subtracts, comparator_of, lever_of, button_of, plate_of, lamp_of, is_top, trapdoor_of, composter_of, cauldron_of, cake_of, slab_of, weighted_of, note_of, block_with, block_named, block_of};
ghost use Rattle.block_table.specs.WrittenText.{is_listed};

use crate::names::{Kind, kind_at, number_of};
use crate::properties::{chosen, state_of, without_namespace};
use crate::{Block, Face, Side, SlabHalf, WireSide};

#[tactic(auto, unfolding(crate::specs::BlockText::face_of))]
fn face_of(properties: &[u8]) -> Option<Face>
    requires { IsFormed properties.now }
    ensures { result ≡ face_of (properties_in properties.now) }
{
    match chosen(properties, "face", &["wall", "floor", "ceiling"])? {
        0 => Some(Face::Wall),
        1 => Some(Face::Floor),
        _ => Some(Face::Ceiling),
    }
}

#[tactic(auto, unfolding(crate::specs::BlockText::facing_of))]
fn facing_of(properties: &[u8]) -> Option<Side>
    requires { IsFormed properties.now }
    ensures { result ≡ facing_of (properties_in properties.now) }
{
    match chosen(properties, "facing", &["north", "south", "west", "east"])? {
        0 => Some(Side::North),
        1 => Some(Side::South),
        2 => Some(Side::West),
        _ => Some(Side::East),
    }
}

#[tactic(auto, unfolding(crate::specs::BlockText::wire_side_of))]
fn wire_side_of(properties: &[u8], key: &str) -> Option<WireSide>
    requires { IsFormed properties.now }
    ensures { result ≡ wire_side_of key.now (properties_in properties.now) }
{
    match chosen(properties, key, &["none", "side", "up"])? {
        0 => Some(WireSide::Absent),
        1 => Some(WireSide::Side),
        _ => Some(WireSide::Up),
    }
}

#[tactic(auto, unfolding(crate::specs::BlockText::slab_half_of))]
fn slab_half_of(properties: &[u8]) -> Option<SlabHalf>
    requires { IsFormed properties.now }
    ensures { result ≡ slab_half_of (properties_in properties.now) }
{
    match chosen(properties, "type", &["bottom", "top", "double"])? {
        0 => Some(SlabHalf::Bottom),
        1 => Some(SlabHalf::Top),
        _ => Some(SlabHalf::Double),
    }
}

/// Whether a key is on, where it is off by default.
#[tactic(auto, unfolding(crate::specs::BlockText::off_or_on))]
fn off_or_on(properties: &[u8], key: &str) -> Option<bool>
    requires { IsFormed properties.now }
    ensures { result ≡ off_or_on key.now (properties_in properties.now) }
{
    let place = chosen(properties, key, &["false", "true"])?;
    Some(place == 1)
}

/// Whether a key is on, where it is on by default.
#[tactic(auto, unfolding(crate::specs::BlockText::on_or_off))]
fn on_or_off(properties: &[u8], key: &str) -> Option<bool>
    requires { IsFormed properties.now }
    ensures { result ≡ on_or_off key.now (properties_in properties.now) }
{
    let place = chosen(properties, key, &["true", "false"])?;
    Some(place == 0)
}

/// A number whose texts from `least` on are listed.
#[tactic(auto, unfolding(crate::specs::BlockText::count_in))]
fn count_in(properties: &[u8], key: &str, least: u8, listed: &[&str]) -> Option<u8>
    requires formed { IsFormed properties.now }
    requires some { 0 < length listed.now }
    requires few { least + length listed.now < 256 }
    ensures { result ≡ count_in least (map (λ text. text.now) listed.now) key.now (properties_in properties.now) }
{
    let place = chosen(properties, key, listed)?;
    Some(least + place as u8)
}

/// The texts of the numbers from 0 to 15.
pub(crate) static NUMBERS: [&str; 16] = [
    "0", "1", "2", "3", "4", "5", "6", "7", "8", "9", "10", "11", "12", "13", "14", "15",
];

/// A stored power from 0 to 15.
fn power_of(properties: &[u8]) -> Option<u8>
    requires { IsFormed properties.now }
    ensures { result ≡ power_of (properties_in properties.now) }
{
    count_in(properties, "power", 0, &NUMBERS)
}

#[tactic(auto, unfolding(crate::specs::BlockText::wire_of))]
fn wire(properties: &[u8]) -> Option<Block>
    requires { IsFormed properties.now }
    ensures { result ≡ wire_of (properties_in properties.now) }
{
    let east = wire_side_of(properties, "east")?;
    let north = wire_side_of(properties, "north")?;
    let south = wire_side_of(properties, "south")?;
    let west = wire_side_of(properties, "west")?;
    let power = power_of(properties)?;
    Some(Block::Wire {
        north,
        east,
        south,
        west,
        power,
    })
}

#[tactic(auto, unfolding(crate::specs::BlockText::torch_of))]
fn torch(properties: &[u8]) -> Option<Block>
    requires { IsFormed properties.now }
    ensures { result ≡ torch_of (properties_in properties.now) }
{
    let lit = on_or_off(properties, "lit")?;
    Some(Block::Torch { lit })
}

#[tactic(auto, unfolding(crate::specs::BlockText::wall_torch_of))]
fn wall_torch(properties: &[u8]) -> Option<Block>
    requires { IsFormed properties.now }
    ensures { result ≡ wall_torch_of (properties_in properties.now) }
{
    let facing = facing_of(properties)?;
    let lit = on_or_off(properties, "lit")?;
    Some(Block::WallTorch { facing, lit })
}

#[tactic(auto, unfolding(crate::specs::BlockText::repeater_of))]
fn repeater(properties: &[u8]) -> Option<Block>
    requires { IsFormed properties.now }
    ensures { result ≡ repeater_of (properties_in properties.now) }
{
    let delay = count_in(properties, "delay", 1, &["1", "2", "3", "4"])?;
    let facing = facing_of(properties)?;
    let powered = off_or_on(properties, "powered")?;
    off_or_on(properties, "locked")?;
    Some(Block::Repeater {
        delay,
        facing,
        powered,
    })
}

#[tactic(auto, unfolding(crate::specs::BlockText::subtracts))]
fn subtracts(properties: &[u8]) -> Option<bool>
    requires { IsFormed properties.now }
    ensures { result ≡ subtracts (properties_in properties.now) }
{
    let place = chosen(properties, "mode", &["compare", "subtract"])?;
    Some(place == 1)
}

#[tactic(auto, unfolding(crate::specs::BlockText::comparator_of))]
fn comparator(properties: &[u8]) -> Option<Block>
    requires { IsFormed properties.now }
    ensures { result ≡ comparator_of (properties_in properties.now) }
{
    let facing = facing_of(properties)?;
    let subtract = subtracts(properties)?;
    off_or_on(properties, "powered")?;
    Some(Block::Comparator { facing, subtract })
}

#[tactic(auto, unfolding(crate::specs::BlockText::lever_of))]
fn lever(properties: &[u8]) -> Option<Block>
    requires { IsFormed properties.now }
    ensures { result ≡ lever_of (properties_in properties.now) }
{
    let face = face_of(properties)?;
    let facing = facing_of(properties)?;
    let powered = off_or_on(properties, "powered")?;
    Some(Block::Lever {
        face,
        facing,
        powered,
    })
}

#[tactic(auto, unfolding(crate::specs::BlockText::button_of))]
fn button(name: u16, properties: &[u8]) -> Option<Block>
    requires { IsFormed properties.now }
    ensures { result ≡ button_of name (properties_in properties.now) }
{
    let face = face_of(properties)?;
    let facing = facing_of(properties)?;
    let powered = off_or_on(properties, "powered")?;
    Some(Block::Button {
        name,
        face,
        facing,
        powered,
    })
}

#[tactic(auto, unfolding(crate::specs::BlockText::plate_of))]
fn plate(name: u16, properties: &[u8]) -> Option<Block>
    requires { IsFormed properties.now }
    ensures { result ≡ plate_of name (properties_in properties.now) }
{
    let powered = off_or_on(properties, "powered")?;
    Some(Block::Plate { name, powered })
}

#[tactic(auto, unfolding(crate::specs::BlockText::lamp_of))]
fn lamp(properties: &[u8]) -> Option<Block>
    requires { IsFormed properties.now }
    ensures { result ≡ lamp_of (properties_in properties.now) }
{
    let lit = off_or_on(properties, "lit")?;
    Some(Block::Lamp { lit })
}

#[tactic(auto, unfolding(crate::specs::BlockText::is_top))]
fn is_top(properties: &[u8]) -> Option<bool>
    requires { IsFormed properties.now }
    ensures { result ≡ is_top (properties_in properties.now) }
{
    let place = chosen(properties, "half", &["bottom", "top"])?;
    Some(place == 1)
}

#[tactic(auto, unfolding(crate::specs::BlockText::trapdoor_of))]
fn trapdoor(properties: &[u8]) -> Option<Block>
    requires { IsFormed properties.now }
    ensures { result ≡ trapdoor_of (properties_in properties.now) }
{
    let facing = facing_of(properties)?;
    let top = is_top(properties)?;
    let powered = off_or_on(properties, "powered")?;
    off_or_on(properties, "open")?;
    off_or_on(properties, "waterlogged")?;
    Some(Block::Trapdoor {
        facing,
        top,
        powered,
    })
}

#[tactic(auto, unfolding(crate::specs::BlockText::composter_of))]
fn composter(properties: &[u8]) -> Option<Block>
    requires { IsFormed properties.now }
    ensures { result ≡ composter_of (properties_in properties.now) }
{
    let listed = ["0", "1", "2", "3", "4", "5", "6", "7", "8"];
    let level = count_in(properties, "level", 0, &listed)?;
    Some(Block::Composter { level })
}

fn cauldron_level(water: bool, properties: &[u8]) -> Option<u8>
    requires { IsFormed properties.now }
    ensures { result ≡ cauldron_level water (properties_in properties.now) }
{
    if water {
        count_in(properties, "level", 1, &["1", "2", "3"])
    } else {
        count_in(properties, "level", 0, &["0", "1", "2", "3"])
    }
}

#[tactic(auto, unfolding(crate::specs::BlockText::cauldron_of))]
fn cauldron(water: bool, properties: &[u8]) -> Option<Block>
    requires { IsFormed properties.now }
    ensures { result ≡ cauldron_of water (properties_in properties.now) }
{
    let level = cauldron_level(water, properties)?;
    Some(Block::Cauldron { water, level })
}

#[tactic(auto, unfolding(crate::specs::BlockText::cake_of))]
fn cake(properties: &[u8]) -> Option<Block>
    requires { IsFormed properties.now }
    ensures { result ≡ cake_of (properties_in properties.now) }
{
    let listed = ["0", "1", "2", "3", "4", "5", "6"];
    let bites = count_in(properties, "bites", 0, &listed)?;
    Some(Block::Cake { bites })
}

#[tactic(auto, unfolding(crate::specs::BlockText::slab_of))]
fn slab(name: u16, properties: &[u8]) -> Option<Block>
    requires { IsFormed properties.now }
    ensures { result ≡ slab_of name (properties_in properties.now) }
{
    let half = slab_half_of(properties)?;
    Some(Block::Slab { name, half })
}

#[tactic(auto, unfolding(crate::specs::BlockText::weighted_of))]
fn weighted(name: u16, properties: &[u8]) -> Option<Block>
    requires { IsFormed properties.now }
    ensures { result ≡ weighted_of name (properties_in properties.now) }
{
    let power = power_of(properties)?;
    Some(Block::Weighted { name, power })
}

#[tactic(auto, unfolding(crate::specs::BlockText::note_of))]
fn note(properties: &[u8]) -> Option<Block>
    requires { IsFormed properties.now }
    ensures { result ≡ note_of (properties_in properties.now) }
{
    let powered = off_or_on(properties, "powered")?;
    Some(Block::Note { powered })
}

/// The block of a name's meaning and number.
fn block_with(kind: Kind, name: u16, properties: &[u8]) -> Option<Block>
    requires { IsFormed properties.now }
    ensures { result ≡ block_with kind name (properties_in properties.now) }
{
    match kind {
        Kind::Air => Some(Block::Air),
        Kind::Wire => wire(properties),
        Kind::Torch => torch(properties),
        Kind::WallTorch => wall_torch(properties),
        Kind::Repeater => repeater(properties),
        Kind::Comparator => comparator(properties),
        Kind::Lever => lever(properties),
        Kind::Button => button(name, properties),
        Kind::Plate => plate(name, properties),
        Kind::RedstoneBlock => Some(Block::RedstoneBlock),
        Kind::Lamp => lamp(properties),
        Kind::Trapdoor => trapdoor(properties),
        Kind::Container { .. } => Some(Block::Container { name }),
        Kind::Composter => composter(properties),
        Kind::Cauldron { water } => cauldron(water, properties),
        Kind::Cake => cake(properties),
        Kind::Inert { .. } => Some(Block::Inert { name }),
        Kind::Slab => slab(name, properties),
        Kind::Weighted => weighted(name, properties),
        Kind::Note => note(properties),
    }
}

#[tactic(auto, unfolding(crate::specs::BlockText::block_named, crate::specs::BlockText::block_numbered))]
fn block_named(name: &[u8], properties: &[u8]) -> Option<Block>
    requires { IsFormed properties.now }
    ensures { result ≡ block_named name.now (properties_in properties.now) }
{
    let number = number_of(name)?;
    block_with(kind_at(number)?, number, properties)
}

/// The block that a state's text means: a name, with or without `minecraft:`, and properties in
/// brackets, as in `lever[face=floor,powered=true]`. `None` where the text hasn't this form, the
/// name isn't in the table, or a property that the block has is given a value that it doesn't take.
/// Of equal properties the last counts, and one that the block hasn't is passed over.
#[tactic(auto, unfolding(crate::specs::BlockText::block_of))]
pub fn parse_state(text: &[u8]) -> Option<Block>
    ensures value { result ≡ block_of text.now }
    ensures listed { IfSome result (λ block. IsTrue (is_listed block)) }
{
    let state = state_of(without_namespace(text))?;
    block_named(state.name, state.properties)
}
