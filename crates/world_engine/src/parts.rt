//! What is known of a thing before the build runs, by its number.

ghost use Rattle.std.specs.Prelude.{◌≡◌, ◌<◌, length};
ghost use Rattle.build.specs.Plan.{block_at};
ghost use Rattle.build.specs.Roles.{base_at, first_at, role_at};
ghost use Rattle.power_rules.specs.Power.{or_direct, or_far};
ghost use Rattle.wire_shape.specs.Shape.{wire_at};
ghost use Rattle.wiring.specs.Parts.{part_at};
ghost use Rattle.wiring.specs.Reads.{back_with};
ghost use Rattle.wiring.specs.Things.{spot};
ghost use Rattle.wiring.specs.Wired.{IsWired};

use circuit::Component;
use wiring::{Part, Things, Wiring};

fn part_of(things: &Things, wiring: &Wiring, number: usize) -> Part
    requires inside { number < length things.now.spots }
    requires wired { IsWired things.now wiring.now }
    ensures { result ≡ part_at things.now.plan things.now.marks (spot things.now number) }
{
    wiring.part(number)
}

/// Whether the thing of a number is a wire.
pub(crate) fn is_wire_of(things: &Things, wiring: &Wiring, number: usize) -> bool
    requires inside { number < length things.now.spots }
    requires wired { IsWired things.now wiring.now }
    ensures { result ≡ wire_at things.now.plan (spot things.now number) }
{
    part_of(things, wiring, number).wire
}

/// The component that it is.
pub(crate) fn role_of(things: &Things, wiring: &Wiring, number: usize) -> Option<Component>
    requires inside { number < length things.now.spots }
    requires wired { IsWired things.now wiring.now }
    ensures { result ≡ role_at things.now.plan things.now.marks (spot things.now number) }
{
    part_of(things, wiring, number).component
}

/// Whether it is a diode that faces a diode.
pub(crate) fn is_first(things: &Things, wiring: &Wiring, number: usize) -> bool
    requires inside { number < length things.now.spots }
    requires wired { IsWired things.now wiring.now }
    ensures { result ≡ first_at things.now.plan (spot things.now number) }
{
    part_of(things, wiring, number).first
}

/// What it gives if it is no component.
pub(crate) fn base_of_block(things: &Things, wiring: &Wiring, number: usize) -> u8
    requires inside { number < length things.now.spots }
    requires wired { IsWired things.now wiring.now }
    ensures { result ≡ base_at things.now.plan (spot things.now number) }
{
    part_of(things, wiring, number).base
}

// What the block beyond the input block makes of a power.
fn far_or(far: Option<u8>, power: u8) -> u8
    ensures { result ≡ or_far far power }
{
    match far {
        Some(strength) if power < 15 => strength,
        _ => power,
    }
}

// What the strengths of two blocks make of a power.
fn direct_or(direct: Option<u8>, far: Option<u8>, power: u8) -> u8
    ensures { result ≡ or_direct direct (or_far far power) }
{
    match direct {
        Some(strength) => strength,
        None => far_or(far, power),
    }
}

/// What is read of its back, where the taps give so much: a comparator has strengths of its own.
pub(crate) fn strengthened(things: &Things, wiring: &Wiring, number: usize, power: u8) -> u8
    requires inside { number < length things.now.spots }
    requires wired { IsWired things.now wiring.now }
    ensures { result ≡ back_with things.now.plan (spot things.now number) (block_at things.now.plan (spot things.now number)) power }
{
    let part = part_of(things, wiring, number);
    direct_or(part.direct, part.far, power)
}
