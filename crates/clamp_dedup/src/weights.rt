//! The least weights of links, by source and group.

ghost use Rattle.std.specs.Prelude.{◌≡◌, ◌≤◌, ◌<◌, ◌↔◌, IfOk, IsTrue, length, slice_set};
ghost use Rattle.clamp_dedup.specs.Weights.{group_number, slot_of, weight_in, lesser, IsEmpty, HasSlots};

use graph::{Group, Link, NodeKey, greatest_number};
use rp_text::NoMemory;
use std::alloc::Global;

// A slot for the links from each node in each group, by the node's number.
#[derive(Drop)]
pub struct Weights {
    slots: Vec<Option<u8>>,
}

impl Weights {
    // Slots for the links from these nodes, with nothing in them.
    pub fn new(alloc: Global, keys: &[NodeKey]) -> Result<Weights, NoMemory>
        ensures empty { IfOk result (λ weights. IsEmpty weights.slots.items) }
        ensures room { IfOk result (λ weights. HasSlots weights.slots.items keys.now) }
    {
        let count = 2 * (greatest_number(keys) as usize + 1);
        let slots = vec![in alloc; None; count]?;
        Ok(Weights { slots })
    }

    // Puts the weight of the link into its slot, if it is less than what is there.
    pub fn note(&mut self, link: &Link)
        requires { slot_of link.now < length self.old.slots.items }
        ensures { self.new.slots.items ≡ slice_set self.old.slots.items (slot_of link.now) (lesser (weight_in self.old.slots.items (slot_of link.now)) link.now.weight) }
    {
        let slot = slot_of(link);
        let least = self.slots[slot];
        self.slots[slot] = lesser(least, link.weight);
    }

    // Whether the slot of the link holds just its weight.
    pub fn is_least(&self, link: &Link) -> bool
        requires { slot_of link.now < length self.now.slots.items }
        ensures { IsTrue result ↔ (weight_in self.now.slots.items (slot_of link.now) ≡ Some link.now.weight) }
    {
        let least = self.slots[slot_of(link)];
        holds(least, link.weight)
    }

    // Empties the slot of the link.
    pub fn clear(&mut self, link: &Link)
        requires { slot_of link.now < length self.old.slots.items }
        ensures { self.new.slots.items ≡ slice_set self.old.slots.items (slot_of link.now) None }
    {
        let slot = slot_of(link);
        self.slots[slot] = None;
    }
}

// The slot of the links from this source in this group.
fn slot_of(link: &Link) -> usize
    ensures { result ≡ slot_of link.now }
{
    2 * link.from.number() as usize + group_number(link.group)
}

fn group_number(group: Group) -> usize
    ensures value { result ≡ group_number group }
    ensures small { result ≤ 1 }
{
    match group {
        Group::Back => 0,
        Group::Side => 1,
    }
}

fn lesser(least: Option<u8>, weight: u8) -> Option<u8>
    ensures { result ≡ lesser least weight }
{
    match least {
        Some(least) => Some(least.min(weight)),
        None => Some(weight),
    }
}

fn holds(least: Option<u8>, weight: u8) -> bool
    ensures { IsTrue result ↔ (least ≡ Some weight) }
{
    match least {
        Some(least) => least == weight,
        None => false,
    }
}
