//! What the values of a file say, before their numbers are looked at.

ghost use Rattle.std.specs.Prelude.{◌≡◌, map, option_map, option_and_then, IfOk};
ghost use Rattle.graph.specs.declared.Kind.TheVariants.{Button, Repeater};
ghost use Rattle.serde_json.specs.View.{view};
ghost use Rattle.graph_file.specs.Entries.{plain_place, plain_kind, plain_entry};
ghost use Rattle.graph_file.specs.Reading.{as_list, number_in, list_in, flag_in, optional_number, place_with, place_of, places_of, comparator_with, kind_named, kind_of, count_or_0, first_of, also_in, bare_of, link_with, link_of};

use rp_text::NoMemory;
use serde_json::Value;
use std::alloc::Global;

/// A place, whatever its numbers.
#[derive(Clone, Copy)]
pub struct Spot {
    pub x: u64,
    pub y: u64,
    pub z: u64,
}

/// A kind of node, whatever its numbers.
#[derive(Clone, Copy)]
pub enum KindEntry {
    Lever,
    Button {
        delay: u64,
    },
    Plate,
    Weighted,
    Torch,
    Repeater {
        delay: u64,
    },
    Comparator {
        subtract: bool,
        direct: Option<u64>,
        far: Option<u64>,
    },
    Lamp,
    Trapdoor,
    Note,
    Wire,
    Constant,
}

/// A node without its further places, whatever its numbers.
#[derive(Clone, Copy)]
pub struct NodeEntry {
    pub kind: KindEntry,
    pub spot: Spot,
    pub state: u64,
    pub first: bool,
    pub due: u64,
    pub priority: u64,
}

/// A link between nodes of these indices, whatever its numbers.
#[derive(Clone, Copy)]
pub struct LinkEntry {
    pub from: u64,
    pub to: u64,
    pub group: u64,
    pub weight: u64,
}

fn as_list(value: &Value) -> Option<&[Value]>
    ensures { option_map (λ list. map view list.now) result ≡ as_list (view value.now) }
{
    match value.as_array() {
        Some(list) => Some(list.as_slice()),
        None => None,
    }
}

pub fn list_in<'v>(value: &'v Value, key: &str) -> Option<&'v [Value]>
    ensures { option_map (λ list. map view list.now) result ≡ list_in key.now (view value.now) }
{
    match value.get(key) {
        Some(found) => as_list(found),
        None => None,
    }
}

pub fn number_in(value: &Value, key: &str) -> Option<u64>
    ensures { result ≡ number_in key.now (view value.now) }
{
    value.get(key).and_then(Value::as_u64)
}

fn flag_in(value: &Value, key: &str) -> Option<bool>
    ensures { result ≡ flag_in key.now (view value.now) }
{
    value.get(key).and_then(Value::as_bool)
}

// A number that may be absent.
fn optional_number(value: &Value, key: &str) -> Option<Option<u64>>
    ensures { result ≡ optional_number key.now (view value.now) }
{
    match value.get(key) {
        Some(found) => found.as_u64().map(Some),
        None => Some(None),
    }
}

fn count_or_0(value: &Value, key: &str) -> Option<u64>
    ensures { result ≡ count_or_0 key.now (view value.now) }
{
    match optional_number(value, key) {
        Some(number) => Some(number.unwrap_or(0)),
        None => None,
    }
}

fn first_of(value: &Value) -> Option<bool>
    ensures { result ≡ first_of (view value.now) }
{
    match value.get("first") {
        Some(found) => found.as_bool(),
        None => Some(false),
    }
}

fn spot_with(x: Option<u64>, y: Option<u64>, z: Option<u64>) -> Option<Spot>
    ensures { option_map plain_place result ≡ place_with x y z }
{
    Some(Spot {
        x: x?,
        y: y?,
        z: z?,
    })
}

fn spot_of(value: &Value) -> Option<Spot>
    ensures { option_map plain_place result ≡ place_of (view value.now) }
{
    let list = as_list(value)?;
    match list {
        [x, y, z] => spot_with(x.as_u64(), y.as_u64(), z.as_u64()),
        _ => None,
    }
}

fn spots_of(alloc: Global, list: &[Value]) -> Result<Option<Vec<Spot>>, NoMemory>
    ensures { IfOk result (λ spots. option_map (λ found. map plain_place found.items) spots ≡ places_of (map view list.now)) }
{
    let mut spots = Vec::new(alloc);
    for value in list {
        let Some(spot) = spot_of(value) else {
            return Ok(None);
        };
        spots.push(spot)?;
    }
    Ok(Some(spots))
}

/// The further places of a node.
pub fn also_in(alloc: Global, also: Option<&Value>) -> Result<Option<Vec<Spot>>, NoMemory>
    ensures { IfOk result (λ spots. option_map (λ found. map plain_place found.items) spots ≡ also_in (option_map (λ d. view d.now) also.entry)) }
{
    let Some(found) = also else {
        return Ok(Some(Vec::new(alloc)));
    };
    match as_list(found) {
        Some(list) => spots_of(alloc, list),
        None => Ok(None),
    }
}

fn comparator_with(
    subtract: Option<bool>,
    direct: Option<Option<u64>>,
    far: Option<Option<u64>>,
) -> Option<KindEntry>
    ensures { option_map plain_kind result ≡ comparator_with subtract direct far }
{
    Some(KindEntry::Comparator {
        subtract: subtract?,
        direct: direct?,
        far: far?,
    })
}

fn button_with(delay: Option<u64>) -> Option<KindEntry>
    ensures { option_map plain_kind result ≡ option_map Button delay }
{
    Some(KindEntry::Button { delay: delay? })
}

fn repeater_with(delay: Option<u64>) -> Option<KindEntry>
    ensures { option_map plain_kind result ≡ option_map Repeater delay }
{
    Some(KindEntry::Repeater { delay: delay? })
}

#[tactic(auto, unfolding(crate::specs::Reading::kind_named))]
fn kind_named(name: &[u8], value: &Value) -> Option<KindEntry>
    ensures { option_map plain_kind result ≡ kind_named name.now (view value.now) }
{
    if name == b"lever".as_slice() {
        Some(KindEntry::Lever)
    } else if name == b"button".as_slice() {
        button_with(number_in(value, "delay"))
    } else if name == b"plate".as_slice() {
        Some(KindEntry::Plate)
    } else if name == b"weighted".as_slice() {
        Some(KindEntry::Weighted)
    } else if name == b"torch".as_slice() {
        Some(KindEntry::Torch)
    } else if name == b"repeater".as_slice() {
        repeater_with(number_in(value, "delay"))
    } else if name == b"comparator".as_slice() {
        comparator_with(
            flag_in(value, "subtract"),
            optional_number(value, "direct"),
            optional_number(value, "far"),
        )
    } else if name == b"lamp".as_slice() {
        Some(KindEntry::Lamp)
    } else if name == b"trapdoor".as_slice() {
        Some(KindEntry::Trapdoor)
    } else if name == b"note".as_slice() {
        Some(KindEntry::Note)
    } else if name == b"wire".as_slice() {
        Some(KindEntry::Wire)
    } else if name == b"constant".as_slice() {
        Some(KindEntry::Constant)
    } else {
        None
    }
}

fn kind_of(value: &Value) -> Option<KindEntry>
    ensures { option_map plain_kind result ≡ kind_of (view value.now) }
{
    match value.get("kind").and_then(Value::as_str) {
        Some(name) => kind_named(name.as_bytes(), value),
        None => None,
    }
}

fn place_in(at: Option<&Value>) -> Option<Spot>
    ensures { option_map plain_place result ≡ option_and_then place_of (option_map (λ d. view d.now) at.entry) }
{
    match at {
        Some(found) => spot_of(found),
        None => None,
    }
}

/// A node without its further places.
pub fn bare_of(value: &Value) -> Option<NodeEntry>
    ensures { option_map plain_entry result ≡ bare_of (view value.now) }
{
    Some(NodeEntry {
        kind: kind_of(value)?,
        spot: place_in(value.get("at"))?,
        state: number_in(value, "state")?,
        first: first_of(value)?,
        due: count_or_0(value, "due")?,
        priority: count_or_0(value, "priority")?,
    })
}

fn link_with(
    from: Option<u64>,
    to: Option<u64>,
    group: Option<u64>,
    weight: Option<u64>,
) -> Option<LinkEntry>
    ensures { result ≡ link_with from to group weight }
{
    Some(LinkEntry {
        from: from?,
        to: to?,
        group: group?,
        weight: weight?,
    })
}

pub fn link_of(value: &Value) -> Option<LinkEntry>
    ensures { result ≡ link_of (view value.now) }
{
    let list = as_list(value)?;
    match list {
        [from, to, group, weight] => link_with(
            from.as_u64(),
            to.as_u64(),
            group.as_u64(),
            weight.as_u64(),
        ),
        _ => None,
    }
}
