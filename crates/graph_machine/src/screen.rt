//! What the outputs show, kept right where a node changes.

ghost use Rattle.std.specs.Prelude.{◌≡◌, ◌<◌, ◌≤◌, ◌^◌, ℕ, IfOk, length, map, slice_index};
ghost use Rattle.graph.specs.GraphCircuit.{graph_circuit};
ghost use Rattle.graph_machine.specs.Screens.{face, AreOnce, ArePlaced, AreFaced, Refaced, screen_of};

use crate::net::Net;
use cell_queue::Cells;
use circuit::Component;
use rp_text::NoMemory;
use std::alloc::Global;
use std::marker::Model;

/// What the outputs show.
#[derive(Drop)]
pub struct Screen {
    // The keys of the outputs, in order.
    keys: Vec<u32>,
    // For each key the index of its output, if it is one.
    places: Vec<u32>,
    shown: Vec<u8>,
}

impl Model for Screen {
    ghost use Rattle.std.specs.Prelude.{length};
    ghost use Rattle.graph_machine.specs.Screens.{Screened, IsScreen};

    ghost Value = { Screened };

    ghost view = { λ s. record { count = length s.places.items; keys = s.keys.items; shown = s.shown.items } };

    ghost invariant = { λ s. IsScreen s.keys.items s.places.items s.shown.items };
}

// What a key must show.
fn face(net: &Net, cells: &Cells, key: usize) -> u8
    requires { key < length net.now.outs }
    ensures { result ≡ face net.now cells.now.cells key }
{
    match net.role(key) {
        Some(Component::Wire) => net.readings(key).back,
        Some(_) => cells.cell(key).value,
        None => 0,
    }
}

// What the outputs must show.
fn faces(alloc: Global, net: &Net, cells: &Cells, keys: &[u32]) -> Result<Vec<u8>, NoMemory>
    requires { (i : ℕ) → i < length keys.now → slice_index keys.now i < length net.now.outs }
    ensures { IfOk result (λ shown. shown.items ≡ map (face net.now cells.now.cells) keys.now) }
{
    let mut shown = Vec::with_capacity(alloc, keys.len())?;
    for key in keys {
        shown.push(face(net, cells, *key as usize))?;
    }
    Ok(shown)
}

// Puts the index of each output to its key.
fn put_places(keys: &[u32], places: &mut [u32])
    requires few { length keys.now ≤ 2 ^ 32 }
    requires once { AreOnce keys.now }
    requires inside { (i : ℕ) → i < length keys.now → slice_index keys.now i < length places.old }
    ensures placed { ArePlaced keys.now places.new }
    ensures whole { length places.new ≡ length places.old }
{
    for (index, key) in keys.iter().enumerate() {
        places[*key as usize] = index as u32;
    }
}

// The output of a key, if it is one, shows what it must.
fn show(net: &Net, cells: &Cells, keys: &[u32], places: &[u32], shown: &mut Vec<u8>, key: usize)
    requires key { key < length places.now }
    requires count { length places.now ≡ length net.now.outs }
    requires placed { ArePlaced keys.now places.now }
    requires whole { length shown.old.items ≡ length keys.now }
    ensures refaced { Refaced net.now cells.now.cells cells.now.cells (screen_of keys.now places.now shown.old.items) (screen_of keys.now places.now shown.new.items) (λ k. k ≡ key) }
    ensures whole { length shown.new.items ≡ length keys.now }
{
    let place = places[key] as usize;
    if place < keys.len() {
        shown[place] = face(net, cells, keys[place] as usize);
    }
}

impl Screen {
    /// What these outputs of a net show.
    pub fn new(alloc: Global, net: &Net, cells: &Cells, keys: Vec<u32>) -> Result<Screen, NoMemory>
        requires { keys.items ≡ (graph_circuit net.now.nodes).shown }
        ensures count { IfOk result (λ screen. screen.count ≡ length net.now.outs) }
        ensures keys { IfOk result (λ screen. screen.keys ≡ (graph_circuit net.now.nodes).shown) }
        ensures faced { IfOk result (λ screen. AreFaced net.now cells.now.cells screen) }
    {
        if keys.len() > u32::MAX as usize {
            return Err(NoMemory);
        }
        let mut places = vec![in alloc; u32::MAX; net.len()]?;
        put_places(&keys, &mut places);
        let shown = faces(alloc, net, cells, &keys)?;
        Ok(Screen {
            keys,
            places,
            shown,
        })
    }

    /// The output of a key, if it is one, shows what it must.
    pub fn refresh(&mut self, net: &Net, cells: &Cells, key: usize)
        requires key { key < length net.now.outs }
        requires count { self.old.count ≡ length net.now.outs }
        ensures { Refaced net.now cells.now.cells cells.now.cells self.old self.new (λ k. k ≡ key) }
    {
        show(net, cells, &self.keys, &self.places, &mut self.shown, key);
    }

    /// What the outputs show.
    pub fn shown(&self) -> &[u8]
        ensures value { result.now ≡ self.now.shown }
        ensures whole { length self.now.shown ≡ length self.now.keys }
    {
        &self.shown
    }

    /// The number of outputs.
    pub fn len(&self) -> usize
        ensures { result ≡ length self.now.keys }
    {
        self.keys.len()
    }
}
