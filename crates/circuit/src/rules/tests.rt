//! The rules as tables.

use super::*;
use crate::{Cell, Click, Component, Readings};

const BUTTON: Component = Component::Button { delay: 10 };

const WOOD_BUTTON: Component = Component::Button { delay: 15 };

const REPEATER: Component = Component::Repeater { delay: 3 };

const COMPARE: Component = Component::Comparator { subtract: false };

const SUBTRACT: Component = Component::Comparator { subtract: true };

fn reads(back: u8, side: u8) -> Readings {
    Readings { back, side }
}

fn holds(value: u8, due: u64, priority: u8) -> Cell {
    Cell {
        value,
        due,
        priority,
    }
}

#[test]
fn goals(rt: HostRuntime) {
    for (component, back, side, want) in [
        (Component::Torch, 0, 0, 1),
        (Component::Torch, 1, 0, 0),
        (Component::Torch, 15, 0, 0),
        (REPEATER, 0, 0, 0),
        (REPEATER, 1, 0, 1),
        (REPEATER, 15, 15, 1),
        (Component::Lamp, 0, 0, 0),
        (Component::Lamp, 1, 0, 1),
        (Component::Trapdoor, 0, 0, 0),
        (Component::Trapdoor, 9, 0, 1),
        (Component::Note, 0, 0, 0),
        (Component::Note, 15, 0, 1),
        (COMPARE, 7, 0, 7),
        (COMPARE, 7, 7, 7),
        (COMPARE, 7, 8, 0),
        (COMPARE, 0, 0, 0),
        (SUBTRACT, 15, 3, 12),
        (SUBTRACT, 7, 7, 0),
        (SUBTRACT, 3, 15, 0),
        (BUTTON, 0, 0, 0),
    ] {
        assert_eq!(rt;
            goal(component, reads(back, side)),
            want,
            "{component:?} at {back}, {side}"
        );
    }
}

#[test]
fn locks(rt: HostRuntime) {
    for (component, side, want) in [
        (REPEATER, 0, false),
        (REPEATER, 1, true),
        (REPEATER, 15, true),
        (COMPARE, 15, false),
    ] {
        assert_eq!(rt;
            locked(component, reads(15, side)),
            want,
            "{component:?} at {side}"
        );
    }
}

#[test]
fn delays(rt: HostRuntime) {
    for (component, want) in [
        (Component::Torch, 1),
        (Component::Repeater { delay: 1 }, 1),
        (Component::Repeater { delay: 4 }, 4),
        (COMPARE, 1),
        (Component::Lamp, 2),
        (WOOD_BUTTON, 15),
        (BUTTON, 10),
    ] {
        assert_eq!(rt; delay(component), want, "{component:?}");
    }
}

#[test]
fn priorities(rt: HostRuntime) {
    for (component, first, value, want) in [
        (REPEATER, true, 0, 0),
        (REPEATER, true, 1, 0),
        (REPEATER, false, 1, 1),
        (REPEATER, false, 0, 2),
        (COMPARE, true, 7, 2),
        (SUBTRACT, true, 0, 2),
        (COMPARE, false, 7, 3),
        (Component::Torch, false, 1, 3),
        (Component::Lamp, false, 1, 3),
        (BUTTON, false, 1, 3),
    ] {
        assert_eq!(rt;
            priority(component, first, value),
            want,
            "{component:?}, {first}, {value}"
        );
    }
}

// At time 7.
#[test]
fn attending(rt: HostRuntime) {
    for (component, first, back, side, cell, want) in [
        // A lamp goes on at once, and off two ticks later.
        (Component::Lamp, false, 1, 0, holds(0, 0, 0), holds(1, 0, 0)),
        (Component::Lamp, false, 1, 0, holds(1, 0, 0), holds(1, 0, 0)),
        (Component::Lamp, false, 0, 0, holds(1, 0, 0), holds(1, 9, 3)),
        (Component::Lamp, false, 0, 0, holds(0, 0, 0), holds(0, 0, 0)),
        // Its tick stays, though its goal comes back.
        (
            Component::Lamp,
            false,
            15,
            0,
            holds(1, 8, 3),
            holds(1, 8, 3),
        ),
        (
            Component::Trapdoor,
            false,
            2,
            0,
            holds(0, 0, 0),
            holds(1, 0, 0),
        ),
        (
            Component::Trapdoor,
            false,
            0,
            0,
            holds(1, 0, 0),
            holds(0, 0, 0),
        ),
        (Component::Note, false, 2, 0, holds(0, 0, 0), holds(1, 0, 0)),
        (Component::Note, false, 0, 0, holds(1, 0, 0), holds(0, 0, 0)),
        (
            Component::Torch,
            false,
            15,
            0,
            holds(1, 0, 0),
            holds(1, 8, 3),
        ),
        (
            Component::Torch,
            false,
            15,
            0,
            holds(0, 0, 0),
            holds(0, 0, 0),
        ),
        (REPEATER, false, 1, 0, holds(0, 0, 0), holds(0, 10, 2)),
        (REPEATER, true, 1, 0, holds(0, 0, 0), holds(0, 10, 0)),
        (REPEATER, false, 0, 0, holds(1, 0, 0), holds(1, 10, 1)),
        // It has a tick already, or is locked.
        (REPEATER, false, 0, 0, holds(1, 8, 1), holds(1, 8, 1)),
        (REPEATER, false, 0, 15, holds(1, 0, 0), holds(1, 0, 0)),
        (COMPARE, false, 9, 4, holds(5, 0, 0), holds(5, 8, 3)),
        (SUBTRACT, true, 9, 4, holds(9, 0, 0), holds(9, 8, 2)),
        (SUBTRACT, true, 9, 4, holds(5, 0, 0), holds(5, 0, 0)),
        (BUTTON, false, 0, 0, holds(1, 0, 0), holds(1, 17, 3)),
        (WOOD_BUTTON, false, 0, 0, holds(1, 0, 0), holds(1, 22, 3)),
        (
            Component::Lever,
            false,
            0,
            0,
            holds(1, 0, 0),
            holds(1, 0, 0),
        ),
        (
            Component::Plate,
            false,
            0,
            0,
            holds(1, 0, 0),
            holds(1, 0, 0),
        ),
        (
            Component::Weighted,
            false,
            0,
            0,
            holds(9, 0, 0),
            holds(9, 0, 0),
        ),
        (
            Component::Wire,
            false,
            15,
            0,
            holds(0, 0, 0),
            holds(0, 0, 0),
        ),
    ] {
        let after = attended(7, component, first, reads(back, side), cell);
        assert_eq!(rt;
            after,
            want,
            "{component:?} at {back}, {side} with {cell:?}"
        );
    }
}

// At time 7.
#[test]
fn firing(rt: HostRuntime) {
    for (component, first, back, side, cell, want) in [
        (
            Component::Torch,
            false,
            15,
            0,
            holds(1, 7, 3),
            holds(0, 0, 0),
        ),
        (
            Component::Torch,
            false,
            0,
            0,
            holds(0, 7, 3),
            holds(1, 0, 0),
        ),
        (COMPARE, false, 9, 4, holds(5, 7, 3), holds(9, 0, 0)),
        (SUBTRACT, false, 9, 4, holds(9, 7, 3), holds(5, 0, 0)),
        (Component::Lamp, false, 0, 0, holds(1, 7, 3), holds(0, 0, 0)),
        (Component::Lamp, false, 1, 0, holds(1, 7, 3), holds(1, 0, 0)),
        (BUTTON, false, 0, 0, holds(1, 7, 3), holds(0, 0, 0)),
        (REPEATER, false, 0, 1, holds(1, 7, 1), holds(1, 0, 0)),
        (REPEATER, false, 15, 1, holds(0, 7, 2), holds(0, 0, 0)),
        (REPEATER, false, 0, 0, holds(1, 7, 1), holds(0, 0, 0)),
        (REPEATER, false, 15, 0, holds(1, 7, 1), holds(1, 0, 0)),
        (REPEATER, false, 15, 0, holds(0, 7, 2), holds(1, 0, 0)),
        // It goes on for a pulse that is over, and gets a tick to go off.
        (REPEATER, false, 0, 0, holds(0, 7, 2), holds(1, 10, 1)),
        (REPEATER, true, 0, 0, holds(0, 7, 0), holds(1, 10, 0)),
    ] {
        let after = fired(7, component, first, reads(back, side), cell);
        assert_eq!(rt;
            after,
            want,
            "{component:?} at {back}, {side} with {cell:?}"
        );
    }
}

// By `Use`, `Press`, `Leave`, and `Weigh` of 0, 1, 15 and 16.
#[test]
fn clicks(rt: HostRuntime) {
    let none = [None; 7];
    for (component, value, want) in [
        (
            Component::Lever,
            0,
            [Some(1), None, None, None, None, None, None],
        ),
        (
            Component::Lever,
            1,
            [Some(0), None, None, None, None, None, None],
        ),
        (BUTTON, 0, [Some(1), None, None, None, None, None, None]),
        (BUTTON, 1, [Some(1), None, None, None, None, None, None]),
        (
            Component::Plate,
            0,
            [None, Some(1), Some(0), None, None, None, None],
        ),
        (
            Component::Plate,
            1,
            [None, Some(1), Some(0), None, None, None, None],
        ),
        (
            Component::Weighted,
            9,
            [None, None, Some(0), None, Some(1), Some(15), None],
        ),
        (Component::Torch, 1, none),
        (REPEATER, 0, none),
        (COMPARE, 7, none),
        (SUBTRACT, 7, none),
        (Component::Lamp, 0, none),
        (Component::Trapdoor, 0, none),
        (Component::Note, 1, none),
        (Component::Wire, 0, none),
    ] {
        for (click, after) in [
            Click::Use,
            Click::Press,
            Click::Leave,
            Click::Weigh { weight: 0 },
            Click::Weigh { weight: 1 },
            Click::Weigh { weight: 15 },
            Click::Weigh { weight: 16 },
        ]
        .iter()
        .zip(want.iter())
        {
            assert_eq!(rt;
                clicked(component, *click, value),
                *after,
                "{component:?}, {click:?}"
            );
            assert_eq!(rt;
                takes(component, *click),
                after.is_some(),
                "{component:?}, {click:?}"
            );
        }
    }
}

#[test]
fn outputs(rt: HostRuntime) {
    assert_eq!(rt; out(Component::Lever, 1), 15);
    assert_eq!(rt; out(Component::Lever, 0), 0);
    assert_eq!(rt; out(BUTTON, 1), 15);
    assert_eq!(rt; out(Component::Plate, 1), 15);
    assert_eq!(rt; out(Component::Weighted, 9), 9);
    assert_eq!(rt; out(Component::Torch, 1), 15);
    assert_eq!(rt; out(REPEATER, 1), 15);
    assert_eq!(rt; out(COMPARE, 9), 9);
    assert_eq!(rt; out(Component::Lamp, 1), 0);
    assert_eq!(rt; out(Component::Trapdoor, 1), 0);
    assert_eq!(rt; out(Component::Note, 1), 0);
    assert_eq!(rt; out(Component::Wire, 0), 0);
}
