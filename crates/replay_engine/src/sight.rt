//! What the places of a running build give and read.

ghost use Rattle.std.specs.Prelude.{◌≡◌, length};
ghost use Rattle.circuit.specs.Component.{attended};
ghost use Rattle.circuit.specs.Circuit.{fired_at, seen_at};
ghost use Rattle.build.specs.Roles.{role_at, first_at};
ghost use Rattle.power_rules.specs.RightWires.{level_with};
ghost use Rattle.replay_engine.specs.Things.{held, nothing};
ghost use Rattle.replay_engine.specs.Running.{given_by, reads_of, AreSmall, AreWithin, IsHolding};

use crate::things::Things;
use cell_counts::{Cells, NOTHING};
use circuit::{Cell, Component, Pos, Readings};
use power_rules::{Levels, base, faces_diode, readings};
use wire_shape::wire_at;

/// What a place holds.
#[tactic(auto, unfolding(crate::specs::Things::held))]
pub(crate) fn cell_at(things: &Things, cells: &Cells, pos: Pos) -> Cell
    ensures { result ≡ held things.now cells.now.cells nothing pos }
{
    match things.number(pos) {
        Some(number) => cells.cell(number),
        None => NOTHING,
    }
}

// The power of the thing at a place, 0 where none stands.
#[tactic(auto, unfolding(crate::specs::Things::held))]
fn power_at(things: &Things, powers: &[u8], pos: Pos) -> u8
    requires { length powers.now ≡ length things.now.spots }
    ensures { result ≡ held things.now powers.now 0 pos }
{
    match things.number(pos) {
        Some(number) => powers[number],
        None => 0,
    }
}

/// What the components of a running build give, and the blocks that always give power. Wires give
/// nothing here.
#[derive(Drop)]
pub(crate) struct Given<'t, 'c> {
    pub(crate) things: &'t Things,
    pub(crate) cells: &'c Cells,
    ghost within: { AreWithin things.now cells.now.cells },
}

impl<'t, 'c> Levels for Given<'t, 'c> {
    ghost level_of = { λ s. given_by s.things.now s.cells.now.cells };

    #[tactic(auto, unfolding(build::specs::Roles::base_at))]
    fn level(&self, pos: Pos) -> u8 {
        match self.things.role(pos) {
            Some(component) => circuit::out(component, cell_at(self.things, self.cells, pos).value),
            None => base(self.things.build().at(pos)),
        }
    }
}

/// The same with the powers of the wires.
#[derive(Drop)]
pub(crate) struct Seen<'t, 'c, 'p> {
    pub(crate) given: Given<'t, 'c>,
    pub(crate) powers: &'p [u8],
    ghost powers_whole: { length powers.now ≡ length given.things.now.spots },
    ghost powers_small: { AreSmall powers.now },
}

impl<'t, 'c, 'p> Levels for Seen<'t, 'c, 'p> {
    ghost level_of = { λ s. level_with s.given.things.now.plan (given_by s.given.things.now s.given.cells.now.cells) (held s.given.things.now s.powers.now 0) };

    fn level(&self, pos: Pos) -> u8 {
        if wire_at(self.given.things.build(), pos) {
            power_at(self.given.things, self.powers, pos)
        } else {
            self.given.level(pos)
        }
    }
}

/// What a place reads.
pub(crate) fn reads(things: &Things, cells: &Cells, powers: &[u8], pos: Pos) -> Readings
    requires holding { IsHolding things.now cells.now }
    requires powers_whole { length powers.now ≡ length things.now.spots }
    requires small { AreSmall powers.now }
    ensures { result ≡ reads_of things.now cells.now.cells powers.now pos }
{
    let given = Given { things, cells };
    readings(things.build(), &Seen { given, powers }, pos)
}

/// What a component that holds a cell holds after it has attended.
pub(crate) fn attended(
    things: &Things,
    cells: &Cells,
    powers: &[u8],
    pos: Pos,
    component: Component,
    cell: Cell,
) -> Cell
    requires holding { IsHolding things.now cells.now }
    requires powers_whole { length powers.now ≡ length things.now.spots }
    requires small { AreSmall powers.now }
    ensures { result ≡ attended cells.now.time component (first_at things.now.plan pos) (reads_of things.now cells.now.cells powers.now pos) cell }
{
    circuit::attended(
        cells.now(),
        component,
        faces_diode(things.build(), pos),
        reads(things, cells, powers, pos),
        cell,
    )
}

/// What a place holds after it has fired.
pub(crate) fn fired(things: &Things, cells: &Cells, powers: &[u8], pos: Pos) -> Cell
    requires holding { IsHolding things.now cells.now }
    requires powers_whole { length powers.now ≡ length things.now.spots }
    requires small { AreSmall powers.now }
    ensures { result ≡ fired_at cells.now.time (role_at things.now.plan things.now.marks pos) (first_at things.now.plan pos) (reads_of things.now cells.now.cells powers.now) pos (held things.now cells.now.cells nothing pos) }
{
    let cell = cell_at(things, cells, pos);
    match things.role(pos) {
        Some(component) => circuit::fired(
            cells.now(),
            component,
            faces_diode(things.build(), pos),
            reads(things, cells, powers, pos),
            cell,
        ),
        None => cell,
    }
}

/// What a place shows: a wire its power, every other component its value.
pub(crate) fn shown(things: &Things, cells: &Cells, powers: &[u8], pos: Pos) -> u8
    requires holding { IsHolding things.now cells.now }
    requires powers_whole { length powers.now ≡ length things.now.spots }
    requires small { AreSmall powers.now }
    ensures { result ≡ seen_at (role_at things.now.plan things.now.marks pos) (reads_of things.now cells.now.cells powers.now) pos (held things.now cells.now.cells nothing pos) }
{
    match things.role(pos) {
        Some(Component::Wire) => reads(things, cells, powers, pos).back,
        Some(_) => cell_at(things, cells, pos).value,
        None => 0,
    }
}
