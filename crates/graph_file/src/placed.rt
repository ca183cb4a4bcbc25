//! A graph as what a script is about, looked up by place.

ghost use Rattle.std.specs.Prelude.{◌≡◌, ◌≤◌, ◌^◌, ℕ, None, IfOk, OnOk, Option, option_map, option_copied};
ghost use Rattle.std.specs.HashMap.{get};
ghost use Rattle.circuit.specs.declared.Click.{Click as PlainClick};
ghost use Rattle.circuit.specs.declared.Pos.{Pos as PlainPos};
ghost use Rattle.graph.specs.Clicks.{answers, is_same_place, is_wire};
ghost use Rattle.graph.specs.Graph.{node_at};
ghost use Rattle.graph.specs.Sound.{IsSound};
ghost use Rattle.graph.specs.Stored.{plain};
ghost use Rattle.graph_file.specs.Placed.{with_kind, kind_at, kind_answers, kind_takes, is_wire_kind};
ghost use Rattle.graph_file.specs.Targets.{takes_click, is_wire_at};

use crate::targets::is_weighable;
use graph::{Graph, Kind, Node, count_keys};
use node_arena::Key;
use rp_text::NoMemory;
use script::{Click, Pos, Targets};
use std::alloc::Global;
use std::collections::HashMap;

/// The kinds of the nodes of a graph by their places. It answers as `GraphTargets` does, without
/// going over the nodes.
#[derive(Drop)]
pub struct PlacedTargets {
    pub kinds: HashMap<Pos, Kind>,
}

impl Targets for PlacedTargets {
    ghost takes = { λ targets place click. kind_takes (get is_same_place targets.kinds place) click };

    ghost wire = { λ targets place. is_wire_kind (get is_same_place targets.kinds place) };

    fn takes(&self, pos: Pos, click: Click) -> bool {
        kind_takes(self.kinds.get(&pos), click)
    }

    fn wire(&self, pos: Pos) -> bool {
        is_wire_kind(self.kinds.get(&pos))
    }
}

impl PlacedTargets {
    /// The targets of a sound graph, in which no place stands twice.
    pub fn new(alloc: Global, graph: &Graph) -> Result<PlacedTargets, NoMemory>
        requires { IsSound graph.now.nodes }
        ensures takes { IfOk result (λ targets. (λ (place : PlainPos) (click : PlainClick). kind_takes (get is_same_place targets.kinds place) click) ≡ takes_click graph.now.nodes) }
        ensures wire { IfOk result (λ targets. (λ (place : PlainPos). is_wire_kind (get is_same_place targets.kinds place)) ≡ is_wire_at graph.now.nodes) }
    {
        let count = count_keys(graph)?;
        let kinds = kinds_below(alloc, graph, count)?;
        Ok(PlacedTargets { kinds })
    }
}

// Puts the kind of the node at its place, if there is a node.
fn put_kind(kinds: &mut HashMap<Pos, Kind>, node: Option<&Node>) -> Result<(), NoMemory>
    ensures { OnOk result ((place : PlainPos) → get is_same_place kinds.new place ≡ with_kind (option_map plain (option_copied node.entry)) place (get is_same_place kinds.old place)) }
{
    if let Some(node) = node {
        kinds.insert(node.pos, node.kind)?;
    }
    Ok(())
}

// The kinds of the nodes below this key. Of the nodes of a place, the first one's stays.
fn kinds_below(alloc: Global, graph: &Graph, count: usize) -> Result<HashMap<Pos, Kind>, NoMemory>
    requires few { count ≤ 2 ^ 32 }
    requires past { (key : ℕ) → count ≤ key → node_at graph.now.nodes key ≡ None }
    ensures { IfOk result (λ kinds. (place : PlainPos) → get is_same_place kinds place ≡ kind_at graph.now.nodes place) }
{
    let mut kinds = HashMap::new(alloc);
    for key in (0..count).rev() {
        put_kind(&mut kinds, graph.node(Key::new(key as u32)))?;
    }
    Ok(kinds)
}

fn answers(kind: Kind, click: Click) -> bool
    ensures { result ≡ answers kind click }
{
    matches!(
        (kind, click),
        (Kind::Lever | Kind::Button { .. }, Click::Use)
            | (Kind::Plate, Click::Press)
            | (Kind::Weighted, Click::Weigh { .. })
            | (Kind::Plate | Kind::Weighted, Click::Leave)
    )
}

fn kind_answers(found: Option<&Kind>, click: Click) -> bool
    ensures { result ≡ kind_answers (option_copied found.entry) click }
{
    match found {
        Some(kind) => answers(*kind, click),
        None => false,
    }
}

fn kind_takes(found: Option<&Kind>, click: Click) -> bool
    ensures { result ≡ kind_takes (option_copied found.entry) click }
{
    is_weighable(click) && kind_answers(found, click)
}

fn is_wire_kind(found: Option<&Kind>) -> bool
    ensures { result ≡ is_wire_kind (option_copied found.entry) }
{
    match found {
        Some(kind) => matches!(*kind, Kind::Wire),
        None => false,
    }
}
