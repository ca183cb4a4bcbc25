//! Texts from blocks.

ghost use Rattle.std.specs.Prelude.{◌≡◌, ◌++◌, IsTrue, OnOk, OnErr, Some, map};
ghost use Rattle.block_table.specs.BlockText.{block_of};
ghost use Rattle.block_table.specs.WrittenText.{state_text, is_listed, joined, side_text, face_text, wire_side_text, slab_half_text, flag_text, mode_text, half_text, cauldron_name, number_text, text_in};

use crate::names::name_at;
use crate::reading::NUMBERS;
use crate::{Block, Face, Side, SlabHalf, WireSide};
use rp_text::{NoMemory, push_bytes};

/// Appends a text that [`parse_state`](crate::parse_state) reads as this block, which is one that it
/// gives: `minecraft:`, the name, and in brackets the properties that the block keeps.
pub fn push_state(block: Block, out: &mut Vec<u8>) -> Result<(), NoMemory>
    requires { IsTrue (is_listed block) }
    ensures ok { OnOk result (out.new.items ≡ out.old.items ++ state_text block) }
    ensures err { OnErr result (out.new.items ≡ out.old.items) }
    ensures reads { block_of (state_text block) ≡ Some block }
{
    push_text(block, out)
}

#[tactic(auto, unfolding(crate::specs::WrittenText::state_text))]
fn push_text(block: Block, out: &mut Vec<u8>) -> Result<(), NoMemory>
    ensures ok { OnOk result (out.new.items ≡ out.old.items ++ state_text block) }
    ensures err { OnErr result (out.new.items ≡ out.old.items) }
{
    match block {
        Block::Air => push_texts(out, &["minecraft:air"]),
        Block::Inert { name } | Block::Container { name } => push_texts(
            out,
            &["minecraft:", name_at(name)],
        ),
        Block::Slab { name, half } => push_texts(
            out,
            &[
                "minecraft:",
                name_at(name),
                "[type=",
                slab_half_text(half),
                "]",
            ],
        ),
        Block::Wire {
            north,
            east,
            south,
            west,
            power,
        } => push_texts(
            out,
            &[
                "minecraft:redstone_wire[east=",
                wire_side_text(east),
                ",north=",
                wire_side_text(north),
                ",south=",
                wire_side_text(south),
                ",west=",
                wire_side_text(west),
                ",power=",
                number_text(power),
                "]",
            ],
        ),
        Block::Torch { lit } => push_texts(
            out,
            &["minecraft:redstone_torch[lit=", flag_text(lit), "]"],
        ),
        Block::WallTorch { facing, lit } => push_texts(
            out,
            &[
                "minecraft:redstone_wall_torch[facing=",
                side_text(facing),
                ",lit=",
                flag_text(lit),
                "]",
            ],
        ),
        Block::Repeater {
            delay,
            facing,
            powered,
        } => push_texts(
            out,
            &[
                "minecraft:repeater[delay=",
                number_text(delay),
                ",facing=",
                side_text(facing),
                ",powered=",
                flag_text(powered),
                "]",
            ],
        ),
        Block::Comparator { facing, subtract } => push_texts(
            out,
            &[
                "minecraft:comparator[facing=",
                side_text(facing),
                ",mode=",
                mode_text(subtract),
                "]",
            ],
        ),
        Block::Lever {
            face,
            facing,
            powered,
        } => push_texts(
            out,
            &[
                "minecraft:lever[face=",
                face_text(face),
                ",facing=",
                side_text(facing),
                ",powered=",
                flag_text(powered),
                "]",
            ],
        ),
        Block::Button {
            name,
            face,
            facing,
            powered,
        } => push_texts(
            out,
            &[
                "minecraft:",
                name_at(name),
                "[face=",
                face_text(face),
                ",facing=",
                side_text(facing),
                ",powered=",
                flag_text(powered),
                "]",
            ],
        ),
        Block::Plate { name, powered } => push_texts(
            out,
            &[
                "minecraft:",
                name_at(name),
                "[powered=",
                flag_text(powered),
                "]",
            ],
        ),
        Block::RedstoneBlock => push_texts(out, &["minecraft:redstone_block"]),
        Block::Lamp { lit } => push_texts(
            out,
            &["minecraft:redstone_lamp[lit=", flag_text(lit), "]"],
        ),
        Block::Trapdoor {
            facing,
            top,
            powered,
        } => push_texts(
            out,
            &[
                "minecraft:iron_trapdoor[facing=",
                side_text(facing),
                ",half=",
                half_text(top),
                ",powered=",
                flag_text(powered),
                "]",
            ],
        ),
        Block::Composter { level } => push_texts(
            out,
            &["minecraft:composter[level=", number_text(level), "]"],
        ),
        Block::Cauldron { water, level } => push_texts(
            out,
            &[
                "minecraft:",
                cauldron_name(water),
                "[level=",
                number_text(level),
                "]",
            ],
        ),
        Block::Cake { bites } => push_texts(
            out,
            &["minecraft:cake[bites=", number_text(bites), "]"],
        ),
        Block::Weighted { name, power } => push_texts(
            out,
            &[
                "minecraft:",
                name_at(name),
                "[power=",
                number_text(power),
                "]",
            ],
        ),
        Block::Note { powered } => push_texts(
            out,
            &["minecraft:note_block[powered=", flag_text(powered), "]"],
        ),
    }
}

/// Appends texts one after the other, or nothing.
fn push_texts(out: &mut Vec<u8>, texts: &[&str]) -> Result<(), NoMemory>
    ensures ok { OnOk result (out.new.items ≡ out.old.items ++ joined (map (λ text. text.now) texts.now)) }
    ensures err { OnErr result (out.new.items ≡ out.old.items) }
{
    let length = out.len();
    for text in texts {
        if push_bytes(out, text.as_bytes()).is_err() {
            out.truncate(length);
            return Err(NoMemory);
        }
    }
    Ok(())
}

/// A number from 0 to 15. A greater one has no text.
fn number_text(number: u8) -> &'static str
    ensures { result.now ≡ number_text number }
{
    text_at(&NUMBERS, number as usize)
}

fn text_at(texts: &[&'static str], place: usize) -> &'static str
    ensures { result.now ≡ text_in place (map (λ text. text.now) texts.now) }
{
    match texts.get(place) {
        Some(text) => text,
        None => "",
    }
}

fn side_text(side: Side) -> &'static str
    ensures { result.now ≡ side_text side }
{
    match side {
        Side::Down => "down",
        Side::Up => "up",
        Side::North => "north",
        Side::South => "south",
        Side::West => "west",
        Side::East => "east",
    }
}

fn face_text(face: Face) -> &'static str
    ensures { result.now ≡ face_text face }
{
    match face {
        Face::Floor => "floor",
        Face::Wall => "wall",
        Face::Ceiling => "ceiling",
    }
}

fn wire_side_text(side: WireSide) -> &'static str
    ensures { result.now ≡ wire_side_text side }
{
    match side {
        WireSide::Absent => "none",
        WireSide::Side => "side",
        WireSide::Up => "up",
    }
}

fn slab_half_text(half: SlabHalf) -> &'static str
    ensures { result.now ≡ slab_half_text half }
{
    match half {
        SlabHalf::Top => "top",
        SlabHalf::Bottom => "bottom",
        SlabHalf::Double => "double",
    }
}

fn flag_text(flag: bool) -> &'static str
    ensures { result.now ≡ flag_text flag }
{
    if flag { "true" } else { "false" }
}

fn mode_text(subtract: bool) -> &'static str
    ensures { result.now ≡ mode_text subtract }
{
    if subtract { "subtract" } else { "compare" }
}

fn half_text(top: bool) -> &'static str
    ensures { result.now ≡ half_text top }
{
    if top { "top" } else { "bottom" }
}

fn cauldron_name(water: bool) -> &'static str
    ensures { result.now ≡ cauldron_name water }
{
    if water { "water_cauldron" } else { "cauldron" }
}
