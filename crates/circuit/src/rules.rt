//! The rules of one component.

ghost use Rattle.std.specs.Prelude.{◌≡◌, ◌≤◌, ◌<◌, ◌^◌, ◌↔◌, IsSome, IsTrue};
ghost use Rattle.circuit.specs.Component.{goal, locked, delay_of, priority_of, attended_value, asks, attended, fired_value, fires_again, fired, takes, clicked, out, top};

use crate::{Cell, Click, Component, Readings};

#[cfg(test)]
mod tests;

/// The value that a component is to have by what it reads.
///
/// A torch is to be on where its back has no power. A repeater, a lamp, a trapdoor and a
/// note block are to be on where theirs has. A comparator that subtracts is to give back
/// less side, one that compares its back unless the side is greater, and none of them less
/// than 0. A button is to be off. The others have no goal, and 0 stands for it.
pub fn goal(component: Component, readings: Readings) -> u8
    ensures { result ≡ goal component readings }
{
    match component {
        Component::Torch => u8::from(readings.back == 0),
        Component::Repeater { .. } | Component::Lamp | Component::Trapdoor | Component::Note => {
            u8::from(readings.back > 0)
        }
        Component::Comparator { subtract: true } => readings.back.saturating_sub(readings.side),
        Component::Comparator { .. } if readings.back >= readings.side => readings.back,
        _ => 0,
    }
}

/// Whether a component is a repeater that power at its sides locks.
pub fn locked(component: Component, readings: Readings) -> bool
    ensures { result ≡ locked component readings }
{
    match component {
        Component::Repeater { .. } => readings.side > 0,
        _ => false,
    }
}

/// The ticks between getting a tick and firing: the own delay of a repeater or a button,
/// or 1 where that is 0; 2 for a lamp; 1 for a torch and a comparator.
pub fn delay(component: Component) -> u8
    ensures { result ≡ delay_of component }
{
    match component {
        Component::Repeater { delay } | Component::Button { delay } => delay.max(1),
        Component::Lamp => 2,
        _ => 1,
    }
}

/// The priority of a new tick, 0 before 1, 2 and 3 among those of one time. `first` says that
/// the component is a diode that faces a diode: a repeater has 0 then, and a comparator 2.
/// Else a repeater that is on has 1, one that is off 2, and all others have 3.
pub fn priority(component: Component, first: bool, value: u8) -> u8
    ensures { result ≡ priority_of component first value }
{
    match component {
        Component::Repeater { .. } if first => 0,
        Component::Repeater { .. } if value == 0 => 2,
        Component::Repeater { .. } => 1,
        Component::Comparator { .. } if first => 2,
        _ => 3,
    }
}

/// The value right after attending. A lamp that is off goes on at once, and a trapdoor and a
/// note block take their goal at once. The others wait for their tick.
pub fn attended_value(component: Component, goal: u8, value: u8) -> u8
    ensures { result ≡ attended_value component goal value }
{
    match component {
        Component::Lamp if value == 0 => goal,
        Component::Trapdoor | Component::Note => goal,
        _ => value,
    }
}

/// Whether a component wants a tick: a lamp that is on and is to go off, and a torch, a
/// repeater, a comparator or a button that isn't at its goal.
pub fn asks(component: Component, goal: u8, value: u8) -> bool
    ensures { result ≡ asks component goal value }
{
    match component {
        Component::Lamp => value != 0 && goal == 0,
        Component::Torch
        | Component::Repeater { .. }
        | Component::Comparator { .. }
        | Component::Button { .. } => value != goal,
        _ => false,
    }
}

/// What a component holds after it attended to what it reads. One that wants a tick gets it,
/// unless it has one or is locked.
pub fn attended(
    time: u64,
    component: Component,
    first: bool,
    readings: Readings,
    cell: Cell,
) -> Cell
    requires { time < 2 ^ 63 }
    ensures { result ≡ attended time component first readings cell }
{
    let goal = goal(component, readings);
    let value = attended_value(component, goal, cell.value);
    if cell.due == 0 && !locked(component, readings) && asks(component, goal, cell.value) {
        Cell {
            value,
            due: time + u64::from(delay(component)),
            priority: priority(component, first, cell.value),
        }
    } else {
        Cell { value, ..cell }
    }
}

/// The value right after firing. A torch and a comparator take their goal. A lamp goes off
/// where that is its goal, and a button always. A repeater does nothing where it is locked;
/// one that is off goes on whatever its goal, so that no pulse is lost; one that is on takes
/// its goal. The others never fire.
pub fn fired_value(component: Component, readings: Readings, value: u8) -> u8
    ensures { result ≡ fired_value component readings value }
{
    match component {
        Component::Torch | Component::Comparator { .. } => goal(component, readings),
        Component::Lamp if readings.back == 0 => 0,
        Component::Button { .. } => 0,
        Component::Repeater { .. } if readings.side == 0 => {
            u8::from(value == 0 || readings.back > 0)
        }
        _ => value,
    }
}

/// Whether a component gets a new tick by its own firing: a repeater that isn't locked and
/// goes on though its goal is off, so that it goes off again.
pub fn fires_again(component: Component, readings: Readings, value: u8) -> bool
    ensures { result ≡ fires_again component readings value }
{
    match component {
        Component::Repeater { .. } => readings.side == 0 && value == 0 && readings.back == 0,
        _ => false,
    }
}

/// What a component holds after it fired. Its tick is gone. A new one by [`fires_again`] has
/// the priority of a repeater that is on.
pub fn fired(time: u64, component: Component, first: bool, readings: Readings, cell: Cell) -> Cell
    requires { time < 2 ^ 63 }
    ensures { result ≡ fired time component first readings cell }
{
    let value = fired_value(component, readings, cell.value);
    if fires_again(component, readings, cell.value) {
        Cell {
            value,
            due: time + u64::from(delay(component)),
            priority: priority(component, first, 1),
        }
    } else {
        Cell {
            value,
            due: 0,
            priority: 0,
        }
    }
}

/// Whether a component takes a click: a lever and a button `Use`, a plate `Press`, a weighted
/// plate `Weigh` of 1 to 15, and both plates `Leave`.
pub fn takes(component: Component, click: Click) -> bool
    ensures { result ≡ takes component click }
{
    match (component, click) {
        (Component::Lever | Component::Button { .. }, Click::Use) => true,
        (Component::Plate, Click::Press | Click::Leave) => true,
        (Component::Weighted, Click::Weigh { weight: 1..=15 } | Click::Leave) => true,
        _ => false,
    }
}

/// The value after a click, or `None` where the component doesn't take it. `Use` toggles a
/// lever and turns a button on, `Press` turns a plate on, `Weigh` gives a weighted plate its
/// weight, and `Leave` turns a plate off and gives a weighted plate 0.
pub fn clicked(component: Component, click: Click, value: u8) -> Option<u8>
    ensures value { result ≡ clicked component click value }
    ensures taken { IsSome result ↔ IsTrue (takes component click) }
{
    match (component, click) {
        (Component::Lever, Click::Use) => Some(1u8.saturating_sub(value)),
        (Component::Button { .. }, Click::Use) => Some(1),
        (Component::Plate, Click::Press) => Some(1),
        (Component::Plate, Click::Leave) => Some(0),
        (Component::Weighted, Click::Weigh { weight }) if takes(component, click) => Some(weight),
        (Component::Weighted, Click::Leave) => Some(0),
        _ => None,
    }
}

/// The power that a component gives: 15 where a lever, a button, a plate, a torch or a repeater
/// is on, and its value for a weighted plate and a comparator. The others give 0.
pub fn out(component: Component, value: u8) -> u8
    requires { value ≤ top component }
    ensures { result ≡ out component value }
{
    match component {
        Component::Lever
        | Component::Button { .. }
        | Component::Plate
        | Component::Torch
        | Component::Repeater { .. } => 15 * value,
        Component::Weighted | Component::Comparator { .. } => value,
        _ => 0,
    }
}
