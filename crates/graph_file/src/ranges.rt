//! The numbers of an entry, each in its range or refused.

ghost use Rattle.std.specs.Prelude.{◌≡◌, ◌≤◌, Some, None, [], true, false, map, option_map, IfOk, if◌then◌else◌};
ghost use Rattle.std.specs.List.{list_all};
ghost use Rattle.graph.specs.GraphCircuit.{role_of};
ghost use Rattle.graph.specs.Sound.{top_of, can_wait};
ghost use Rattle.graph.specs.Stored.{plain};
ghost use Rattle.graph_file.specs.Entries.{plain_place, plain_kind, with_also};
ghost use Rattle.graph_file.specs.GraphFile.{is_place, is_strength, is_kind, is_tick, is_node};
ghost use Rattle.graph_file.specs.Ranged.{if_so};

use crate::entries::{KindEntry, NodeEntry, Spot};
use graph::{Kind, Links, Node, Places, Pos, can_wait, top_of};
use rp_text::NoMemory;
use smallvec::SmallVec;
use std::alloc::Global;

// Places have numbers of 0 to 65,535.
const MOST: u64 = 65_535;

fn pos_of(spot: Spot) -> Option<Pos>
    ensures { result ≡ if_so (is_place (plain_place spot)) (plain_place spot) }
{
    if spot.x <= MOST && spot.y <= MOST && spot.z <= MOST {
        Some(Pos {
            x: spot.x as i32,
            y: spot.y as i32,
            z: spot.z as i32,
        })
    } else {
        None
    }
}

fn places_of(alloc: Global, spots: &[Spot]) -> Result<Option<Vec<Pos>>, NoMemory>
    ensures { IfOk result (λ places. option_map (λ found. found.items) places ≡ if_so (list_all is_place (map plain_place spots.now)) (map plain_place spots.now)) }
{
    let mut places = Vec::new(alloc);
    for spot in spots {
        let Some(pos) = pos_of(*spot) else {
            return Ok(None);
        };
        places.push(pos)?;
    }
    Ok(Some(places))
}

// A strength of 0 to 15.
fn strength_of(strength: Option<u64>) -> Option<Option<u8>>
    ensures { result ≡ if_so (is_strength strength) strength }
{
    match strength {
        None => Some(None),
        Some(strength) if strength <= 15 => Some(Some(strength as u8)),
        Some(_) => None,
    }
}

fn comparator(subtract: bool, direct: Option<u64>, far: Option<u64>) -> Option<Kind>
    ensures { result ≡ if_so (is_kind (Kind.Comparator subtract direct far)) (Kind.Comparator subtract direct far) }
{
    Some(Kind::Comparator {
        subtract,
        direct: strength_of(direct)?,
        far: strength_of(far)?,
    })
}

fn kind_of(kind: KindEntry) -> Option<Kind>
    ensures { result ≡ if_so (is_kind (plain_kind kind)) (plain_kind kind) }
{
    match kind {
        KindEntry::Lever => Some(Kind::Lever),
        KindEntry::Button { delay } if delay == 10 || delay == 15 => Some(Kind::Button {
            delay: delay as u8,
        }),
        KindEntry::Button { .. } => None,
        KindEntry::Plate => Some(Kind::Plate),
        KindEntry::Weighted => Some(Kind::Weighted),
        KindEntry::Torch => Some(Kind::Torch),
        KindEntry::Repeater { delay } if 1 <= delay && delay <= 4 => Some(Kind::Repeater {
            delay: delay as u8,
        }),
        KindEntry::Repeater { .. } => None,
        KindEntry::Comparator {
            subtract,
            direct,
            far,
        } => comparator(subtract, direct, far),
        KindEntry::Lamp => Some(Kind::Lamp),
        KindEntry::Trapdoor => Some(Kind::Trapdoor),
        KindEntry::Note => Some(Kind::Note),
        KindEntry::Wire => Some(Kind::Wire),
        KindEntry::Constant => Some(Kind::Constant),
    }
}

fn is_tick(kind: Kind, due: u64, priority: u64) -> bool
    ensures { result ≡ is_tick kind due priority }
{
    if due > 15 || priority > 3 {
        return false;
    }
    if due == 0 {
        priority == 0
    } else {
        can_wait(kind)
    }
}

/// The node without links, where each number is in its range.
pub fn node_of(alloc: Global, entry: NodeEntry, also: &[Spot]) -> Result<Option<Node>, NoMemory>
    ensures { IfOk result (λ node. option_map plain node ≡ if_so (is_node (with_also entry also.now)) (with_also entry also.now)) }
{
    let Some(pos) = pos_of(entry.spot) else {
        return Ok(None);
    };
    let Some(places) = places_of(alloc, also)? else {
        return Ok(None);
    };
    let Some(kind) = kind_of(entry.kind) else {
        return Ok(None);
    };
    if entry.state > u64::from(top_of(kind)) {
        return Ok(None);
    }
    if !is_tick(kind, entry.due, entry.priority) {
        return Ok(None);
    }
    Ok(Some(Node {
        pos,
        kind,
        state: entry.state as u8,
        first: entry.first,
        due: entry.due as u8,
        priority: entry.priority as u8,
        links: Links {
            items: SmallVec::new(alloc),
        },
        also: Places { items: places },
    }))
}
