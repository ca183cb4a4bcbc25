//! The lines of a graph's text.

ghost use Rattle.std.specs.Prelude.{◌≡◌, ◌++◌, ◌^◌, Option, option_map, option_copied, OnOk, codes, decimal};
ghost use Rattle.std.specs.List.{flat_map};
ghost use Rattle.std.specs.Fmt.{signed_decimal};
ghost use Rattle.graph.specs.Stored.{plain, plain_nodes};
ghost use Rattle.graph.specs.GraphText.{kind_text, mode_text, strength_text, detail_text, first_text, tick_text, place_text, node_line, group_text, link_line, link_lines, entry_text, texts_from, graph_line};

use crate::{Group, Kind, Link, Node, OfNodes, Pos};
use node_arena::{Arena, Key};
use rp_text::{NoMemory, push_bytes, push_u64};

// Appends the first line.
pub fn push_counts(text: &mut Vec<u8>, nodes: u64, links: u64) -> Result<(), NoMemory>
    ensures { OnOk result (text.new.items ≡ text.old.items ++ graph_line nodes links) }
{
    push_bytes(text, b"graph ")?;
    push_u64(text, nodes)?;
    push_bytes(text, b" ")?;
    push_u64(text, links)?;
    push_bytes(text, b"\n")
}

// Appends a line for each node.
pub fn push_node_lines(text: &mut Vec<u8>, nodes: &Arena<OfNodes, Node>) -> Result<(), NoMemory>
    ensures { OnOk result (text.new.items ≡ text.old.items ++ texts_from node_line 0 (plain_nodes nodes.now.entries)) }
{
    for number in 0..nodes.made() {
        push_node_at(text, number, nodes.get(Key::new(number)))?;
    }
    Ok(())
}

fn push_node_at(text: &mut Vec<u8>, number: u32, node: Option<&Node>) -> Result<(), NoMemory>
    ensures { OnOk result (text.new.items ≡ text.old.items ++ entry_text node_line number (option_map plain (option_copied node.entry))) }
{
    match node {
        Some(node) => push_node(text, number, node),
        None => Ok(()),
    }
}

fn push_node(text: &mut Vec<u8>, number: u32, node: &Node) -> Result<(), NoMemory>
    ensures { OnOk result (text.new.items ≡ text.old.items ++ node_line number (plain node.now)) }
{
    push_bytes(text, b"node ")?;
    push_u64(text, u64::from(number))?;
    push_bytes(text, b" ")?;
    push_bytes(text, kind_text(node.kind))?;
    push_bytes(text, b" ")?;
    push_place(text, node.pos)?;
    push_bytes(text, b" ")?;
    push_u64(text, u64::from(node.state))?;
    push_detail(text, node.kind)?;
    push_first(text, node.first)?;
    push_tick(text, node.due, node.priority)?;
    push_bytes(text, b"\n")
}

fn kind_text(kind: Kind) -> &'static [u8]
    ensures { result.now ≡ kind_text kind }
{
    match kind {
        Kind::Lever => b"lever",
        Kind::Button { .. } => b"button",
        Kind::Plate => b"plate",
        Kind::Weighted => b"weighted",
        Kind::Torch => b"torch",
        Kind::Repeater { .. } => b"repeater",
        Kind::Comparator { .. } => b"comparator",
        Kind::Lamp => b"lamp",
        Kind::Trapdoor => b"trapdoor",
        Kind::Note => b"note",
        Kind::Wire => b"wire",
        Kind::Constant => b"constant",
    }
}

fn push_place(text: &mut Vec<u8>, pos: Pos) -> Result<(), NoMemory>
    ensures { OnOk result (text.new.items ≡ text.old.items ++ place_text pos) }
{
    push_signed(text, pos.x)?;
    push_bytes(text, b" ")?;
    push_signed(text, pos.y)?;
    push_bytes(text, b" ")?;
    push_signed(text, pos.z)
}

fn push_signed(text: &mut Vec<u8>, number: i32) -> Result<(), NoMemory>
    ensures { OnOk result (text.new.items ≡ text.old.items ++ signed_decimal number) }
{
    if number < 0 {
        push_bytes(text, b"-")?;
    }
    push_u64(text, u64::from(number.unsigned_abs()))
}

fn push_detail(text: &mut Vec<u8>, kind: Kind) -> Result<(), NoMemory>
    ensures { OnOk result (text.new.items ≡ text.old.items ++ detail_text kind) }
{
    match kind {
        Kind::Button { delay } | Kind::Repeater { delay } => push_delay(text, delay),
        Kind::Comparator {
            subtract,
            direct,
            far,
        } => push_comparator(text, subtract, direct, far),
        Kind::Lever
        | Kind::Plate
        | Kind::Weighted
        | Kind::Torch
        | Kind::Lamp
        | Kind::Trapdoor
        | Kind::Note
        | Kind::Wire
        | Kind::Constant => Ok(()),
    }
}

fn push_delay(text: &mut Vec<u8>, delay: u8) -> Result<(), NoMemory>
    ensures { OnOk result (text.new.items ≡ text.old.items ++ codes " delay " ++ decimal delay) }
{
    push_bytes(text, b" delay ")?;
    push_u64(text, u64::from(delay))
}

fn push_comparator(
    text: &mut Vec<u8>,
    subtract: bool,
    direct: Option<u8>,
    far: Option<u8>,
) -> Result<(), NoMemory>
    ensures { OnOk result (text.new.items ≡ text.old.items ++ mode_text subtract ++ strength_text direct far) }
{
    push_bytes(text, if subtract { b" subtract" } else { b" compare" })?;
    match (direct, far) {
        (Some(direct), _) => push_strength(text, b" direct ", direct),
        (None, Some(far)) => push_strength(text, b" far ", far),
        (None, None) => Ok(()),
    }
}

fn push_strength(text: &mut Vec<u8>, name: &[u8], strength: u8) -> Result<(), NoMemory>
    ensures { OnOk result (text.new.items ≡ text.old.items ++ name.now ++ decimal strength) }
{
    push_bytes(text, name)?;
    push_u64(text, u64::from(strength))
}

fn push_first(text: &mut Vec<u8>, first: bool) -> Result<(), NoMemory>
    ensures { OnOk result (text.new.items ≡ text.old.items ++ first_text first) }
{
    if first {
        push_bytes(text, b" first")
    } else {
        Ok(())
    }
}

fn push_tick(text: &mut Vec<u8>, due: u8, priority: u8) -> Result<(), NoMemory>
    ensures { OnOk result (text.new.items ≡ text.old.items ++ tick_text due priority) }
{
    if due == 0 {
        return Ok(());
    }
    push_bytes(text, b" due ")?;
    push_u64(text, u64::from(due))?;
    push_bytes(text, b" priority ")?;
    push_u64(text, u64::from(priority))
}

// Appends a line for each link.
pub fn push_link_lines(text: &mut Vec<u8>, nodes: &Arena<OfNodes, Node>) -> Result<(), NoMemory>
    ensures { OnOk result (text.new.items ≡ text.old.items ++ texts_from link_lines 0 (plain_nodes nodes.now.entries)) }
{
    for number in 0..nodes.made() {
        push_links_at(text, number, nodes.get(Key::new(number)))?;
    }
    Ok(())
}

fn push_links_at(text: &mut Vec<u8>, number: u32, node: Option<&Node>) -> Result<(), NoMemory>
    ensures { OnOk result (text.new.items ≡ text.old.items ++ entry_text link_lines number (option_map plain (option_copied node.entry))) }
{
    match node {
        Some(node) => push_links(text, number, &node.links.items),
        None => Ok(()),
    }
}

fn push_links(text: &mut Vec<u8>, to: u32, links: &[Link]) -> Result<(), NoMemory>
    ensures { OnOk result (text.new.items ≡ text.old.items ++ flat_map (link_line to) links.now) }
{
    for link in links {
        push_link(text, to, *link)?;
    }
    Ok(())
}

fn push_link(text: &mut Vec<u8>, to: u32, link: Link) -> Result<(), NoMemory>
    ensures { OnOk result (text.new.items ≡ text.old.items ++ link_line to link) }
{
    push_bytes(text, b"link ")?;
    push_u64(text, u64::from(link.from.number()))?;
    push_bytes(text, b" ")?;
    push_u64(text, u64::from(to))?;
    push_bytes(text, group_text(link.group))?;
    push_u64(text, u64::from(link.weight))?;
    push_bytes(text, b"\n")
}

fn group_text(group: Group) -> &'static [u8]
    ensures { result.now ≡ group_text group }
{
    match group {
        Group::Back => b" back ",
        Group::Side => b" side ",
    }
}
