//! Texts of orders of small builds, and what is wrong with others. The texts were derived by hand.

use block_table::parse_state;
use build::{Build, Pos};
use report::OrderKind;
use script::read_script;
use std::alloc::Global;
use std::process::Abort;
use std::test::Fail;
use world_order::{Checked, OrderRefusal, check};

// A lever on a block that turns off a repeater and a torch.
const REPEATER_AND_TORCH: [(i32, &str); 4] = [
    (0, "lever[face=wall,facing=west]"),
    (1, "stone"),
    (2, "repeater[facing=west]"),
    (3, "redstone_wall_torch[facing=south]"),
];

fn build_of(rt: &impl Abort, alloc: Global) -> Result<Build, Fail> {
    let mut build = Build::new(alloc, 3, 1, 2, 0)?;
    for (cell, state) in REPEATER_AND_TORCH {
        let pos = if cell < 3 {
            Pos {
                x: cell,
                y: 0,
                z: 0,
            }
        } else {
            Pos { x: 1, y: 0, z: 1 }
        };
        let block = parse_state(state.as_bytes()).expect(rt, "a block of the table");
        assert!(rt; build.contains(pos));
        build.set(pos, block);
    }
    Ok(build)
}

// What the check of a text says, by one use of the lever and one tick.
fn checked(
    rt: &impl Abort,
    alloc: Global,
    text: &[u8],
) -> Result<Result<Checked, OrderRefusal>, Fail> {
    let build = build_of(rt, alloc)?;
    let script = read_script(alloc, b"use 0 0 0\ntick 1\n", &build)?;
    assert!(rt; text.len() <= 1024);
    Ok(check(alloc, &build, &script, text))
}

fn is_refused(
    rt: &impl Abort,
    alloc: Global,
    text: &[u8],
    line: u32,
    tick: u32,
    kind: OrderKind,
) -> Result<(), Fail> {
    assert_eq!(rt;
        checked(rt, alloc, text)?,
        Err(OrderRefusal::At { line, tick, kind })
    );
    Ok(())
}

#[test]
fn orders_are_taken(rt: HostRuntime) -> Result<(), Fail> {
    let alloc = rt.alloc();
    let want = Ok(Checked { ticks: 1, fires: 2 });
    assert_eq!(rt;
        checked(
            &rt,
            alloc,
            b"outputs 0\n0 start\n0 use\nfire 2 0 0\nfire 1 0 1\n1 tick\nend\n"
        )?,
        want
    );
    assert_eq!(rt;
        checked(
            &rt,
            alloc,
            b"outputs 0\n0 start\n0 use\nfire 2 0 0\nfire 1 0 1\n1 tick\nnodes 3 links 2 events 3\nend\n"
        )?,
        want
    );
    Ok(())
}

#[test]
fn other_texts_are_refused(rt: HostRuntime) -> Result<(), Fail> {
    let alloc = rt.alloc();
    is_refused(&rt, alloc, b"", 1, 0, OrderKind::Short)?;
    is_refused(&rt, alloc, b"outputs 1\n", 1, 0, OrderKind::Differs)?;
    is_refused(
        &rt,
        alloc,
        b"outputs 0\n0 start\n0 use\nfire 2 0 00\n",
        4,
        0,
        OrderKind::Form,
    )?;
    is_refused(
        &rt,
        alloc,
        b"outputs 0\n0 start\n0 use\nfire 2 0 0\nfire 2 0 0\n",
        5,
        0,
        OrderKind::Twice,
    )?;
    is_refused(
        &rt,
        alloc,
        b"outputs 0\n0 start\n0 use\nfire 1 0 0\n",
        4,
        0,
        OrderKind::NotDue,
    )?;
    is_refused(
        &rt,
        alloc,
        b"outputs 0\n0 start\n0 use\nfire 4294967295 0 0\n",
        4,
        0,
        OrderKind::NotDue,
    )?;
    is_refused(
        &rt,
        alloc,
        b"outputs 0\n0 start\n0 use\nfire 1 0 1\n",
        4,
        0,
        OrderKind::Priority,
    )?;
    is_refused(
        &rt,
        alloc,
        b"outputs 0\n0 start\n0 use\nfire 2 0 0\n1 tick\n",
        5,
        0,
        OrderKind::Left,
    )?;
    is_refused(
        &rt,
        alloc,
        b"outputs 0\n0 start\n0 use\nfire 2 0 0\nfire 1 0 1\n1 tick\nend\n\n",
        8,
        1,
        OrderKind::Trailing,
    )?;
    Ok(())
}
