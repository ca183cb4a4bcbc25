//! The counts of all nodes, with a table of their own only for groups that have two links or more.

ghost use Rattle.std.specs.Prelude.{◌≡◌, ◌+◌, ◌-◌, ◌<◌, ◌≤◌, ◌^◌, ◌==◌, ◌&&◌, ◌⊎◌, ℕ, [], ◌∷◌, ◌++◌, IfOk, IfSome, OnErr, OnOk, length, slice_index};
ghost use Rattle.graph.specs.declared.Group.{Group};
ghost use Rattle.graph.specs.Links.{is_group};
ghost use Rattle.link_counts.specs.Counted.{one_if, count_at, tally};
ghost use Rattle.link_counts.specs.Tabled.{number_in, with_number, IsShifted, IsLone, IsAllotted};

use crate::counts::Counts;
use graph::Group;
use rp_text::NoMemory;
use std::alloc::Global;
use std::marker::Model;

// The number of the first table.
const FIRST: u32 = 17;

/// What is known of the links of a node, each group by a number: 0 says that there is none, 1 to 16
/// that there is one, which brings one less, and what is more is the number of a table.
#[derive(Clone, Copy)]
pub struct Place {
    pub back: u32,
    pub side: u32,
}

/// For each node, under keys from 0 on, and each group, how many links bring each strength.
#[derive(Drop)]
pub struct Tables {
    places: Vec<Place>,
    tables: Vec<[u32; 16]>,
}

impl Model for Tables {
    ghost use Rattle.std.specs.Prelude.{List, map};
    ghost use Rattle.link_counts.specs.declared.counts.Counts.{Counts};
    ghost use Rattle.link_counts.specs.Tabled.{counts_in, IsTabled};

    ghost Value = { List Counts };

    ghost view = { λ t. map (counts_in t.tables.items) t.places.items };

    ghost invariant = { λ t. IsTabled t.places.items t.tables.items };
}

fn number_in(place: Place, group: Group) -> u32
    ensures { result ≡ number_in place group }
{
    match group {
        Group::Back => place.back,
        Group::Side => place.side,
    }
}

fn with_number(place: Place, group: Group, number: u32) -> Place
    ensures { result ≡ with_number place group number }
{
    match group {
        Group::Back => Place {
            back: number,
            ..place
        },
        Group::Side => Place {
            side: number,
            ..place
        },
    }
}

/// One link brings another strength.
fn shift(table: &mut [u32; 16], from: u8, to: u8)
    requires from { from < 16 }
    requires to { to < 16 }
    requires some { 0 < slice_index table.old from }
    requires few { slice_index table.old to + 1 < 2 ^ 32 }
    ensures shifted { IsShifted table.old from to table.new }
    ensures wide { length table.new ≡ 16 }
{
    table[from as usize] -= 1;
    table[to as usize] += 1;
}

/// The greatest strength that is counted.
fn greatest_of(table: &[u32; 16]) -> u8
    ensures small { result < 16 }
    ensures some { 0 < result → 0 < slice_index table.now result }
    ensures none { (strength : ℕ) → result < strength → strength < 16 → slice_index table.now strength ≡ 0 }
{
    for strength in (1..16).rev() {
        if table[strength as usize] > 0 {
            return strength;
        }
    }
    0
}

/// The number of at most one link, where a number tells of the counts so far and so many more links
/// bring the next strength.
fn with_count(number: u32, strength: u32, count: u32) -> Option<u32>
    requires { strength < 16 }
    ensures { IfSome result (λ after. ((count ≡ 0) × (after ≡ number)) ⊎ ((count ≡ 1) × (number ≡ 0) × (after ≡ strength + 1))) }
{
    match count {
        0 => Some(number),
        1 if number == 0 => Some(strength + 1),
        _ => None,
    }
}

/// The number of these counts, if they are those of at most one link.
fn lone_number(table: &[u32; 16]) -> Option<u32>
    ensures { IfSome result (IsLone table.now 16) }
{
    let mut number = 0;
    for strength in 0..16u8 {
        number = with_count(number, u32::from(strength), table[strength as usize])?;
    }
    Some(number)
}

/// The number of these counts, which is that of a new table where there are two links or more.
fn allot(tables: &mut Vec<[u32; 16]>, table: [u32; 16]) -> Result<u32, NoMemory>
    ensures allotted { IfOk result (λ number. IsAllotted tables.old.items table number tables.new.items) }
    ensures same { OnErr result (tables.new.items ≡ tables.old.items) }
    ensures wide { length table ≡ 16 }
{
    if let Some(number) = lone_number(&table) {
        return Ok(number);
    }
    let number = u32::try_from(tables.len() + FIRST as usize).map_err(|_| NoMemory)?;
    tables.push(table)?;
    Ok(number)
}

impl Tables {
    /// No node, and room for so many.
    pub fn new(alloc: Global, room: usize) -> Result<Tables, NoMemory>
        ensures { IfOk result (λ tables. tables ≡ []) }
    {
        Ok(Tables {
            places: Vec::with_capacity(alloc, room)?,
            tables: Vec::new(alloc),
        })
    }

    /// Adds a node behind the others.
    pub fn push(&mut self, counts: Counts) -> Result<(), NoMemory>
        ensures { OnOk result (self.new ≡ self.old ++ counts ∷ []) }
    {
        let back = allot(&mut self.tables, counts.back)?;
        let side = allot(&mut self.tables, counts.side)?;
        self.places.push(Place { back, side })?;
        Ok(())
    }

    /// A link of a node brings another strength.
    pub fn shift(&mut self, key: usize, group: Group, from: u8, to: u8)
        requires key { key < length self.old }
        requires from { from < 16 }
        requires to { to < 16 }
        requires some { 0 < tally self.old key group from }
        requires few { tally self.old key group to + 1 < 2 ^ 32 }
        ensures same { length self.new ≡ length self.old }
        ensures shifted { (other : ℕ) (second : Group) (at : ℕ) →
            tally self.new other second at + one_if ((key == other) && (is_group second group && (from == at))) ≡ tally self.old other second at + one_if ((key == other) && (is_group second group && (to == at))) }
    {
        let place = self.places[key];
        let number = number_in(place, group);
        if number < FIRST {
            self.places[key] = with_number(place, group, u32::from(to) + 1);
        } else {
            shift(&mut self.tables[(number - FIRST) as usize], from, to);
        }
    }

    /// The greatest strength that a link of the group brings to a node, 0 where there is none.
    pub fn greatest(&self, key: usize, group: Group) -> u8
        requires { key < length self.now }
        ensures small { result < 16 }
        ensures some { 0 < result → 0 < tally self.now key group result }
        ensures none { (strength : ℕ) → result < strength → strength < 16 → tally self.now key group strength ≡ 0 }
    {
        let number = number_in(self.places[key], group);
        if number < FIRST {
            number.saturating_sub(1) as u8
        } else {
            greatest_of(&self.tables[(number - FIRST) as usize])
        }
    }
}
