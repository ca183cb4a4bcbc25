//! What the nodes give and read.

ghost use Rattle.std.specs.Prelude.{◌≡◌, ◌+◌, ◌-◌, ◌*◌, ◌<◌, ◌==◌, ◌&&◌, ◌≤◌, ◌^◌, ◌⊎◌, ℕ, length, slice_index, slice_index_or, slice_set, All, None, IfOk};
ghost use Rattle.circuit.specs.Circuit.{outs};
ghost use Rattle.graph.specs.Graph.{node_at};
ghost use Rattle.graph.specs.Sound.{IsSound};
ghost use Rattle.graph.specs.declared.Group.{Group};
ghost use Rattle.graph.specs.GraphCircuit.{graph_circuit, begin_at, readings_at, role_at, first_at};
ghost use Rattle.graph_machine.specs.Outgoing.{links_from, outgoing};
ghost use Rattle.link_counts.specs.Counted.{one_if, count_at, no_counts, tally};
ghost use Rattle.graph_machine.specs.Counted.{is_strength, hits, row};
ghost use Rattle.graph_machine.specs.Wired.{given, part_at, targets_in, rule_of, back_by, brief_by};

use crate::links::{OutLink, OutLinks, Rows};
use crate::steps::Steps;
use crate::wiring::{briefs_of, outs_of, parts_of, wire};
use circuit::{Component, Readings};
use graph::{Graph, Group, Kind, Pos, role_of};
use link_counts::Tables;
use rp_text::NoMemory;
use std::alloc::Global;
use std::marker::Model;
use std::snapshot::Snapshot;
use std::sync::ledger::Ledger;

/// What a node is, without its links.
#[derive(Clone, Copy, PartialEq, Eq, Debug)]
pub struct Part {
    pub pos: Pos,
    pub kind: Kind,
    pub state: u8,
    pub first: bool,
}

/// How the back reading of a node comes of the power that its Back links bring: it is that power,
/// or a strength always, or a strength where the power is below 15.
#[derive(Clone, Copy, PartialEq, Eq, Debug)]
pub enum BackRule {
    Power,
    Direct(u8),
    Far(u8),
}

/// What an event needs of a node, in few bytes: the component that it is, whether it is a diode
/// that faces a diode, and its back reading.
#[derive(Clone, Copy, PartialEq, Eq, Debug)]
pub struct Brief {
    pub role: Option<Component>,
    pub first: bool,
    pub back: BackRule,
}

/// The nodes of a graph, what each of them gives, and for each how many of its links bring each
/// strength.
#[derive(Drop)]
pub struct Net {
    // The graph, for clauses alone.
    graph: Snapshot<Graph>,
    // What no event needs.
    parts: Vec<Option<Part>>,
    briefs: Vec<Brief>,
    outs: Vec<u8>,
    tables: Tables,
    links: OutLinks,
}

impl Model for Net {
    ghost use Rattle.std.specs.Prelude.{map};
    ghost use Rattle.graph_machine.specs.Wired.{Wired, targets_of, IsWired};

    ghost Value = { Wired };

    ghost view = { λ net. record { nodes = net.graph.value.nodes; outs = net.outs.items; targets = map targets_of net.links } };

    ghost invariant = { λ net. IsWired net.graph.value.nodes net.parts.items net.briefs.items net.outs.items net.tables net.links };
}

fn rule_of(kind: Kind) -> BackRule
    ensures { result ≡ rule_of kind }
{
    match kind {
        Kind::Comparator {
            direct: Some(direct),
            ..
        } => BackRule::Direct(direct),
        Kind::Comparator {
            direct: None,
            far: Some(far),
            ..
        } => BackRule::Far(far),
        Kind::Comparator {
            direct: None,
            far: None,
            ..
        }
        | Kind::Lever
        | Kind::Button { .. }
        | Kind::Plate
        | Kind::Weighted
        | Kind::Torch
        | Kind::Repeater { .. }
        | Kind::Lamp
        | Kind::Trapdoor
        | Kind::Note
        | Kind::Wire
        | Kind::Constant => BackRule::Power,
    }
}

/// What an event needs of a node.
pub fn brief_of(part: Option<Part>) -> Brief
    ensures { result ≡ brief_by part }
{
    match part {
        Some(part) => Brief {
            role: role_of(part.kind),
            first: part.first,
            back: rule_of(part.kind),
        },
        None => Brief {
            role: None,
            first: false,
            back: BackRule::Power,
        },
    }
}

/// The back reading of a node whose Back links bring so much.
fn back_by(rule: BackRule, power: u8) -> u8
    ensures { result ≡ back_by rule power }
{
    match rule {
        BackRule::Power => power,
        BackRule::Direct(direct) => direct,
        BackRule::Far(far) => { if power < 15 { far } else { power } }
    }
}

/// A link brings another strength.
fn move_one(tables: &mut Tables, link: OutLink, old: u8, new: u8)
    requires to { link.to < length tables.old }
    requires old { old < 16 }
    requires new { new < 16 }
    requires some { 0 < tally tables.old link.to link.group (old - link.weight) }
    requires few { tally tables.old link.to link.group (new - link.weight) + 1 < 2 ^ 32 }
    ensures whole { length tables.new ≡ length tables.old }
    ensures moved { (key : ℕ) (group : Group) (strength : ℕ) →
        tally tables.new key group strength + one_if ((link.to == key) && is_strength old group strength link.group link.weight) ≡ tally tables.old key group strength + one_if ((link.to == key) && is_strength new group strength link.group link.weight) }
{
    tables.shift(
        link.to as usize,
        link.group,
        old.saturating_sub(link.weight),
        new.saturating_sub(link.weight),
    );
}

/// The links out of a node bring another strength each.
fn spread<L: Ledger>(
    tables: &mut Tables,
    links: &OutLinks,
    from: usize,
    old: u8,
    new: u8,
    steps: &mut Steps<L>,
) -> usize
    requires from { from < length links.now }
    requires inside { All (λ link. link.to < length tables.old) (row links.now from) }
    requires old { old < 16 }
    requires new { new < 16 }
    requires enough { (key : ℕ) (group : Group) (strength : ℕ) → strength < 16 → hits (is_strength old group strength) key (row links.now from) ≤ tally tables.old key group strength }
    requires few { (key : ℕ) (group : Group) (strength : ℕ) → strength < 16 → tally tables.old key group strength < 2 ^ 31 }
    ensures moved { (key : ℕ) (group : Group) (strength : ℕ) →
        tally tables.new key group strength + hits (is_strength old group strength) key (row links.now from) ≡ tally tables.old key group strength + hits (is_strength new group strength) key (row links.now from) }
    ensures whole { length tables.new ≡ length tables.old }
    ensures count { result ≡ length (row links.now from) }
    ensures read { steps.new ≡ steps.old + 1 + length (row links.now from) }
{
    let count = links.count(from, steps);
    for index in 0..count {
        let link = links.link(from, index, steps);
        move_one(tables, link, old, new);
    }
    count
}

impl Net {
    ghost use Rattle.graph_machine.specs.Wired.{AreTargets};

    /// The nodes of a graph as they begin, under so many keys.
    pub fn start(alloc: Global, graph: &Graph, count: usize) -> Result<Net, NoMemory>
        requires sound { IsSound graph.now.nodes }
        requires few { count ≤ 2 ^ 32 }
        requires past { (key : ℕ) → count ≤ key → node_at graph.now.nodes key ≡ None }
        ensures nodes { IfOk result (λ net. net.nodes ≡ graph.now.nodes) }
        ensures outs { IfOk result (λ net. (key : ℕ) → given net.outs key ≡ outs (graph_circuit graph.now.nodes) (record { time = 0; cells = λ other. begin_at (node_at graph.now.nodes other) }) key) }
    {
        let parts = parts_of(alloc, graph, count)?;
        let briefs = briefs_of(alloc, &parts)?;
        let outs = outs_of(alloc, &parts)?;
        let mut tables = Tables::new(alloc, count)?;
        let mut rows = Rows::new(alloc, count)?;
        wire(graph, &outs, &mut tables, &mut rows)?;
        let links = rows.pack(alloc)?;
        Ok(Net {
            graph: Snapshot::of(graph),
            parts,
            briefs,
            outs,
            tables,
            links,
        })
    }

    /// How many keys there are, with those that hold nothing.
    pub fn len(&self) -> usize
        ensures len { result ≡ length self.now.outs }
        ensures past { (key : ℕ) → length self.now.outs ≤ key → node_at self.now.nodes key ≡ None }
        ensures few { result ≤ 2 ^ 32 }
    {
        self.outs.len()
    }

    /// The node under the key.
    pub fn part(&self, key: usize) -> Option<Part>
        ensures { result ≡ part_at (node_at self.now.nodes key) }
    {
        *self.parts.get(key)?
    }

    /// The component under the key.
    pub fn role(&self, key: usize) -> Option<Component>
        ensures { result ≡ role_at (node_at self.now.nodes key) }
    {
        self.briefs.get(key)?.role
    }

    /// Whether the node under the key is a diode that faces a diode.
    pub fn is_first(&self, key: usize) -> bool
        ensures { result ≡ first_at (node_at self.now.nodes key) }
    {
        match self.briefs.get(key) {
            Some(brief) => brief.first,
            None => false,
        }
    }

    /// What the node under the key reads.
    pub fn readings(&self, key: usize) -> Readings
        requires { key < length self.now.outs }
        ensures { result ≡ readings_at (given self.now.outs) (node_at self.now.nodes key) }
    {
        let power = self.tables.greatest(key, Group::Back);
        let side = self.tables.greatest(key, Group::Side);
        Readings {
            back: back_by(self.briefs[key].back, power),
            side,
        }
    }

    /// What the key gives.
    pub fn out(&self, key: usize) -> u8
        requires { key < length self.now.outs }
        ensures { result ≡ given self.now.outs key }
    {
        self.outs[key]
    }

    /// Changes what a key gives, and tells how many links go out of it.
    pub fn change<L: Ledger>(&mut self, key: usize, out: u8, steps: &mut Steps<L>) -> usize
        requires key { key < length self.old.outs }
        requires out { out < 16 }
        ensures nodes { self.new.nodes ≡ self.old.nodes }
        ensures outs { self.new.outs ≡ slice_set self.old.outs key out }
        ensures targets { self.new.targets ≡ self.old.targets }
        ensures count { result ≡ length (targets_in self.old.targets key) }
        ensures outgoing { result ≡ outgoing self.old.nodes key }
        ensures all { AreTargets self.old.nodes (targets_in self.old.targets key) key }
        ensures read { steps.new ≡ steps.old + 1 + result }
    {
        let count = spread(
            &mut self.tables,
            &self.links,
            key,
            self.outs[key],
            out,
            steps,
        );
        self.outs[key] = out;
        count
    }

    /// The key of a node that reads what the key gives.
    pub fn target<L: Ledger>(&self, key: usize, index: usize, steps: &mut Steps<L>) -> usize
        requires { index < length (targets_in self.now.targets key) }
        ensures value { result ≡ slice_index (targets_in self.now.targets key) index }
        ensures inside { result < length self.now.outs }
        ensures read { steps.new ≡ steps.old + 1 }
    {
        self.links.link(key, index, steps).to as usize
    }
}
