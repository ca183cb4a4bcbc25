//! The outputs of a graph, as the header of a run names them.

ghost use Rattle.std.specs.Prelude.{◌≡◌, IfOk, length};
ghost use Rattle.std.specs.List.{filter_map};
ghost use Rattle.graph.specs.GraphCircuit.{graph_circuit};
ghost use Rattle.graph.specs.Sound.{IsSound};
ghost use Rattle.graph_machine.specs.Headed.{out_kind, output_at, part_place, graph_outputs};

use crate::net::Part;
use crate::places::shown_by;
use crate::wiring::part_under;
use build::{OutKind, OutPlace};
use graph::{Graph, Kind, count_keys};
use rp_text::NoMemory;
use std::alloc::Global;

fn out_kind(kind: Kind) -> Option<OutKind>
    ensures { result ≡ out_kind kind }
{
    match kind {
        Kind::Lamp => Some(OutKind::Lamp),
        Kind::Trapdoor => Some(OutKind::Trapdoor),
        Kind::Note => Some(OutKind::Note),
        Kind::Wire => Some(OutKind::Wire),
        Kind::Lever
        | Kind::Button { .. }
        | Kind::Plate
        | Kind::Weighted
        | Kind::Torch
        | Kind::Repeater { .. }
        | Kind::Comparator { .. }
        | Kind::Constant => None,
    }
}

fn part_place(part: Option<Part>) -> Option<OutPlace>
    ensures { result ≡ part_place part }
{
    let part = part?;
    let kind = out_kind(part.kind)?;
    Some(OutPlace {
        pos: part.pos,
        kind,
    })
}

/// The output under a key.
fn output_at(graph: &Graph, key: u32) -> Option<OutPlace>
    ensures { result ≡ output_at graph.now.nodes key }
{
    part_place(part_under(graph, key as usize))
}

/// The outputs under some keys.
fn outputs_under(alloc: Global, graph: &Graph, keys: &[u32]) -> Result<Vec<OutPlace>, NoMemory>
    ensures { IfOk result (λ places. places.items ≡ filter_map (output_at graph.now.nodes) keys.now) }
{
    Ok(
        keys.iter()
            .filter_map(|key| output_at(graph, *key))
            .collect(alloc)?,
    )
}

/// The outputs of a graph in order of places, each with its kind: what a header says of a run.
pub fn outputs_of(alloc: Global, graph: &Graph) -> Result<Vec<OutPlace>, NoMemory>
    requires { IsSound graph.now.nodes }
    ensures places { IfOk result (λ places. places.items ≡ graph_outputs graph.now.nodes) }
    ensures count { IfOk result (λ places. length places.items ≡ length (graph_circuit graph.now.nodes).shown) }
{
    let count = count_keys(graph)?;
    let keys = shown_by(alloc, graph, count)?;
    outputs_under(alloc, graph, &keys)
}
