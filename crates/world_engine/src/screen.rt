//! What the outputs show, kept right where a thing changes.

ghost use Rattle.std.specs.Prelude.{◌≡◌, ◌<◌, ◌≤◌, ℕ, Some, IfOk, length, map};
ghost use Rattle.world_engine.specs.Outlets.{outlets_of};
ghost use Rattle.world_engine.specs.Screens.{face, number_in, ArePlaced, AreFaced, IsPut, Refaced, screen_of};

use crate::outlets::{Outlet, outlets};
use crate::valued::ValuedCells;
use rp_text::NoMemory;
use std::alloc::Global;
use std::marker::Model;
use wiring::Things;

/// What the outputs show.
#[derive(Drop)]
pub(crate) struct Screen {
    // How each is shown.
    outlets: Vec<Outlet>,
    // For each thing the index of the output that shows it, if one does.
    places: Vec<u32>,
    shown: Vec<u8>,
}

impl Model for Screen {
    ghost use Rattle.std.specs.Prelude.{length};
    ghost use Rattle.world_engine.specs.Screens.{Screened, IsScreen};

    ghost Value = { Screened };

    ghost view = { λ s. record { count = length s.places.items; outlets = s.outlets.items; shown = s.shown.items } };

    ghost invariant = { λ s. IsScreen s.outlets.items s.places.items s.shown.items };
}

// What an output must show.
fn face(levels: &[u8], cells: &ValuedCells, outlet: Outlet) -> u8
    requires levels { (n : ℕ) → number_in outlet ≡ Some n → n < length levels.now }
    requires cells { (n : ℕ) → number_in outlet ≡ Some n → n < length cells.now.cells }
    ensures { result ≡ face levels.now cells.now.cells outlet }
{
    match outlet {
        Outlet::Blank => 0,
        Outlet::Level(number) => levels[number as usize],
        Outlet::Value(number) => cells.value(number as usize),
    }
}

// What the outputs must show.
fn faces(
    alloc: Global,
    levels: &[u8],
    cells: &ValuedCells,
    outlets: &[Outlet],
    places: &[u32],
) -> Result<Vec<u8>, NoMemory>
    requires placed { ArePlaced outlets.now places.now }
    requires levels { length levels.now ≡ length places.now }
    requires cells { length cells.now.cells ≡ length places.now }
    ensures { IfOk result (λ shown. shown.items ≡ map (face levels.now cells.now.cells) outlets.now) }
{
    let mut shown = Vec::with_capacity(alloc, outlets.len())?;
    for outlet in outlets {
        shown.push(face(levels, cells, *outlet))?;
    }
    Ok(shown)
}

// Puts the index of an output to the thing that it shows.
fn put_place(places: &mut [u32], outlet: Outlet, index: usize)
    requires inside { (n : ℕ) → number_in outlet ≡ Some n → n < length places.old }
    requires few { index < 16777216 }
    ensures { IsPut outlet index places.old places.new }
{
    match outlet {
        Outlet::Blank => {}
        Outlet::Level(number) => places[number as usize] = index as u32,
        Outlet::Value(number) => places[number as usize] = index as u32,
    }
}

// Puts the index of each output to the thing that it shows.
fn put_places(things: &Things, outlets: &[Outlet], places: &mut [u32])
    requires outlets { outlets.now ≡ outlets_of things.now }
    requires whole { length places.old ≡ length things.now.spots }
    ensures placed { ArePlaced outlets.now places.new }
    ensures whole { length places.new ≡ length places.old }
{
    let _ = things.count();
    for (index, outlet) in outlets.iter().enumerate() {
        put_place(places, *outlet, index);
    }
}

// The output of a thing, if one shows it, shows what it must.
fn show(
    levels: &[u8],
    cells: &ValuedCells,
    outlets: &[Outlet],
    places: &[u32],
    shown: &mut Vec<u8>,
    number: usize,
)
    requires number { number < length places.now }
    requires levels { length levels.now ≡ length places.now }
    requires cells { length cells.now.cells ≡ length places.now }
    requires placed { ArePlaced outlets.now places.now }
    requires whole { length shown.old.items ≡ length outlets.now }
    ensures refaced { Refaced levels.now cells.now.cells cells.now.cells (screen_of outlets.now places.now shown.old.items) (screen_of outlets.now places.now shown.new.items) (λ n. n ≡ number) }
    ensures whole { length shown.new.items ≡ length outlets.now }
{
    let place = places[number] as usize;
    if place < outlets.len() {
        shown[place] = face(levels, cells, outlets[place]);
    }
}

impl Screen {
    /// What the outputs show where the things have these levels and hold these cells.
    pub(crate) fn new(
        alloc: Global,
        things: &Things,
        levels: &[u8],
        cells: &ValuedCells,
    ) -> Result<Screen, NoMemory>
        requires levels { length levels.now ≡ length things.now.spots }
        requires cells { length cells.now.cells ≡ length things.now.spots }
        ensures count { IfOk result (λ screen. screen.count ≡ length things.now.spots) }
        ensures outlets { IfOk result (λ screen. screen.outlets ≡ outlets_of things.now) }
        ensures faced { IfOk result (λ screen. AreFaced levels.now cells.now.cells screen) }
    {
        let outlets = outlets(alloc, things)?;
        let mut places = vec![in alloc; u32::MAX; things.count()]?;
        put_places(things, &outlets, &mut places);
        let shown = faces(alloc, levels, cells, &outlets, &places)?;
        Ok(Screen {
            outlets,
            places,
            shown,
        })
    }

    /// The output of a thing, if one shows it, shows what it must.
    pub(crate) fn refresh(&mut self, levels: &[u8], cells: &ValuedCells, number: usize)
        requires number { number < self.old.count }
        requires levels { length levels.now ≡ self.old.count }
        requires cells { length cells.now.cells ≡ self.old.count }
        ensures { Refaced levels.now cells.now.cells cells.now.cells self.old self.new (λ n. n ≡ number) }
    {
        show(
            levels,
            cells,
            &self.outlets,
            &self.places,
            &mut self.shown,
            number,
        );
    }

    /// What the outputs show.
    pub(crate) fn shown(&self) -> &[u8]
        ensures value { result.now ≡ self.now.shown }
        ensures whole { length self.now.shown ≡ length self.now.outlets }
    {
        &self.shown
    }

    /// The number of outputs.
    pub(crate) fn len(&self) -> usize
        ensures { result ≡ length self.now.outlets }
    {
        self.outlets.len()
    }
}
