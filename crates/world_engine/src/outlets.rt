//! How the outputs of a build are shown, by the numbers of its things.

ghost use Rattle.std.specs.Prelude.{◌≡◌, IfOk};
ghost use Rattle.world_engine.specs.Outlets.{outlet_at, outlet_of, outlets_of};

use circuit::{Component, Pos};
use rp_text::NoMemory;
use std::alloc::Global;
use wiring::Things;

/// How an output is shown: by the level of a thing or by its value. Where nothing is shown it is
/// blank.
#[derive(Clone, Copy)]
pub(crate) enum Outlet {
    Blank,
    Level(u32),
    Value(u32),
}

// How a thing is shown that is this component.
fn outlet_of(role: Option<Component>, number: u32) -> Outlet
    ensures { result ≡ outlet_of role number }
{
    match role {
        None => Outlet::Blank,
        Some(Component::Wire) => Outlet::Level(number),
        Some(_) => Outlet::Value(number),
    }
}

// How a place is shown.
fn outlet_at(things: &Things, pos: Pos) -> Outlet
    ensures { result ≡ outlet_at things.now pos }
{
    let _ = things.count();
    match things.number(pos) {
        Some(number) => outlet_of(things.role(pos), number as u32),
        None => Outlet::Blank,
    }
}

/// How the outputs are shown.
pub(crate) fn outlets(alloc: Global, things: &Things) -> Result<Vec<Outlet>, NoMemory>
    ensures { IfOk result (λ outlets. outlets.items ≡ outlets_of things.now) }
{
    let places = things.outputs(alloc)?;
    let mut outlets = Vec::with_capacity(alloc, places.len())?;
    for place in &places {
        outlets.push(outlet_at(things, place.pos))?;
    }
    Ok(outlets)
}
