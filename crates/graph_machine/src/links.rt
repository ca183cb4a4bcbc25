//! The links out of the nodes of a started machine. Each read of one is counted.

ghost use Rattle.std.specs.Prelude.{◌≡◌, ◌+◌, ◌<◌, ◌≤◌, ◌^◌, ℕ, [], ◌∷◌, ◌++◌, IfOk, OnOk, length, slice_index_or, slice_set};
ghost use Rattle.graph_machine.specs.Counted.{row};
ghost use Rattle.graph_machine.specs.Packed.{start_at};

use crate::steps::Steps;
use graph::Group;
use rp_text::NoMemory;
use std::alloc::Global;
use std::marker::Model;
use std::sync::ledger::Ledger;

/// The most links that a machine has room for.
pub const MOST_LINKS: usize = 0x8000_0000;

/// A link to a node.
#[derive(Clone, Copy, PartialEq, Eq, Debug)]
pub struct OutLink {
    pub to: u32,
    pub group: Group,
    pub weight: u8,
}

/// The links out of each node, to which more are added.
#[derive(Drop)]
pub struct Rows {
    rows: Vec<Vec<OutLink>>,
}

impl Model for Rows {
    ghost use Rattle.std.specs.Prelude.{List, map};
    ghost use Rattle.graph_machine.specs.declared.links.OutLink.{OutLink};

    ghost Value = { List (List OutLink) };

    ghost view = { λ links. map (λ row. row.items) links.rows.items };
}

/// The links out of each node, those of the next one behind those of the one before.
#[derive(Drop)]
pub struct OutLinks {
    ends: Vec<u32>,
    links: Vec<OutLink>,
}

impl Model for OutLinks {
    ghost use Rattle.std.specs.Prelude.{List};
    ghost use Rattle.graph_machine.specs.declared.links.OutLink.{OutLink};
    ghost use Rattle.graph_machine.specs.Packed.{rows_from, IsPacked};

    ghost Value = { List (List OutLink) };

    ghost view = { λ links. rows_from 0 links.ends.items links.links.items };

    ghost invariant = { λ links. IsPacked links.ends.items links.links.items };
}

/// Appends links, as long as there are not too many.
fn append(links: &mut Vec<OutLink>, row: &[OutLink]) -> Result<(), NoMemory>
    ensures items { OnOk result (links.new.items ≡ links.old.items ++ row.now) }
    ensures few { OnOk result (length links.new.items ≤ 2 ^ 31) }
{
    links.extend_from_slice(row)?;
    if links.len() > MOST_LINKS {
        return Err(NoMemory);
    }
    Ok(())
}

impl Rows {
    /// So many nodes without links.
    pub fn new(alloc: Global, count: usize) -> Result<Rows, NoMemory>
        ensures count { IfOk result (λ links. length links ≡ count) }
        ensures none { IfOk result (λ links. (from : ℕ) → row links from ≡ []) }
    {
        let mut rows = Vec::with_capacity(alloc, count)?;
        for _ in 0..count {
            rows.push(Vec::new(alloc))?;
        }
        Ok(Rows { rows })
    }

    /// Adds a link out of a node.
    pub fn add(&mut self, from: usize, link: OutLink) -> Result<(), NoMemory>
        requires { from < length self.old }
        ensures ok { OnOk result (self.new ≡ slice_set self.old from (row self.old from ++ link ∷ [])) }
    {
        self.rows[from].push(link)?;
        Ok(())
    }

    /// The same links without room for more.
    pub fn pack(&self, alloc: Global) -> Result<OutLinks, NoMemory>
        ensures { IfOk result (λ links. links ≡ self.now) }
    {
        let mut ends = Vec::with_capacity(alloc, self.rows.len())?;
        let mut links = Vec::new(alloc);
        for row in &self.rows {
            append(&mut links, row)?;
            ends.push(links.len() as u32)?;
        }
        Ok(OutLinks { ends, links })
    }
}

/// Where the links of a node begin.
fn start_at(ends: &[u32], from: usize) -> usize
    requires { from < length ends.now }
    ensures { result ≡ start_at 0 ends.now from }
{
    if from == 0 {
        0
    } else {
        ends[from - 1] as usize
    }
}

impl OutLinks {
    /// How many links go out of a node.
    pub fn count<L: Ledger>(&self, from: usize, steps: &mut Steps<L>) -> usize
        requires { from < length self.now }
        ensures count { result ≡ length (row self.now from) }
        ensures few { result ≤ 2 ^ 31 }
        ensures read { steps.new ≡ steps.old + 1 }
    {
        steps.tick();
        self.ends[from] as usize - start_at(&self.ends, from)
    }

    /// One of them.
    pub fn link<L: Ledger>(&self, from: usize, index: usize, steps: &mut Steps<L>) -> OutLink
        requires from { from < length self.now }
        requires index { index < length (row self.now from) }
        ensures link { result ≡ slice_index_or (row self.now from) index result }
        ensures read { steps.new ≡ steps.old + 1 }
    {
        steps.tick();
        self.links[start_at(&self.ends, from) + index]
    }
}
