//! Texts of orders that are checked.

use crate::row_tests::{TWINS, box_of};
use crate::support::{Faults, NONE, Outcome, by, call, gate_file, is_refused, writes};
use redpile_top::Status;
use schem_write::{write_build, write_build3};
use std::alloc::Global;
use std::process::Abort;
use std::test::Fail;

const CHECK: &[&str] = &["check", "a", "b", "c"];

const ORDERED: &[&str] = &["run", "a", "b", "--keep", "--order"];

const TWINS_SCRIPT: &[u8] = b"use 1 2 0\ntick 1";

fn checked(
    alloc: Global,
    build: &[u8],
    script: &[u8],
    order: &[u8],
    faults: Faults,
) -> Result<Outcome, Fail> {
    let files = [("a", build), ("b", script), ("c", order)];
    call(alloc, CHECK, &files, faults)
}

// What stands before the tick of the twins.
const HEAD: &[u8] = b"outputs 2\n0 0 0 lamp\n2 0 0 lamp\n0 start 1 1\n0 use 1 1\n";

fn behind_head(alloc: Global, more: &[u8]) -> Result<Vec<u8>, Fail> {
    let mut text = Vec::from_slice(alloc, HEAD)?;
    text.extend_from_slice(more)?;
    Ok(text)
}

/// Each order of the twins' torches, and each line of counts.
#[test]
fn orders_of_twins(rt: HostRuntime) -> Result<(), Fail> {
    let alloc = rt.alloc();
    let build = box_of(&rt, alloc, [3, 3, 1], &TWINS)?;
    let accepted: [&[u8]; 5] = [
        b"fire 0 1 0\nfire 2 1 0\n1 tick 1 1\nnodes 4 links 3 events 2\nend\n",
        b"fire 2 1 0\nfire 0 1 0\n1 tick 1 1\nnodes 4 links 3 events 2\nend\n",
        b"fire 0 1 0\nfire 2 1 0\n1 tick 1 1\nend\n",
        b"fire 0 1 0\nfire 2 1 0\n1 tick 1 1\nnodes \nend\n",
        b"fire 0 1 0\nfire 2 1 0\n1 tick 1 1\nnodes and a CR\r\nend\n",
    ];
    for file in [write_build(alloc, &build)?, write_build3(alloc, &build)?] {
        for more in accepted {
            let text = behind_head(alloc, more)?;
            let outcome = checked(alloc, &file, TWINS_SCRIPT, &text, NONE)?;
            writes(&rt, &outcome, b"ticks 1 fires 2\nend\n");
        }
    }
    Ok(())
}

/// Each kind of a bad line, by what stands behind the line of the click.
#[test]
fn bad_orders_of_twins(rt: HostRuntime) -> Result<(), Fail> {
    let alloc = rt.alloc();
    let build = write_build(alloc, &box_of(&rt, alloc, [3, 3, 1], &TWINS)?)?;
    let rows: [(&[u8], &[u8]); 25] = [
        (b"", b"line 6 tick 0 short"),
        (b"fire 0 1 0", b"line 6 tick 0 short"),
        (b"fire 0 1 0\nfire 2 1 0\n", b"line 8 tick 0 short"),
        (
            b"fire 0 1 0\nfire 2 1 0\n1 tick 1 1\nend",
            b"line 9 tick 1 short",
        ),
        (
            b"fire 0 1 0\nfire 2 1 0\n1 tick 1 1\nnodes 4",
            b"line 9 tick 1 short",
        ),
        (b"fire 0 1\n", b"line 6 tick 0 form"),
        (b"fire 0 1 0 \n", b"line 6 tick 0 form"),
        (b"fire 00 1 0\n", b"line 6 tick 0 form"),
        (b"fire -1 1 0\n", b"line 6 tick 0 form"),
        (b"fire 0 1 0\r\n", b"line 6 tick 0 form"),
        (b"fire 0 1 4294967296\n", b"line 6 tick 0 form"),
        (b"fire 0 1 4294967295\n", b"line 6 tick 0 not due"),
        (b"fire 0 1 2147483648\n", b"line 6 tick 0 not due"),
        (
            b"fire 1 2 0\nfire 2 1 0\n1 tick 1 1\n",
            b"line 6 tick 0 not due",
        ),
        (b"fire 0 1 0\nfire 0 1 0\n", b"line 7 tick 0 twice"),
        (b"fire 0 1 0\n1 tick 1 1\n", b"line 7 tick 0 left"),
        (b"fire\n", b"line 6 tick 0 left"),
        (b"fire 0 1 0\nfire 2 1 0\nfire\n", b"line 8 tick 0 differs"),
        (
            b"fire 0 1 0\nfire 2 1 0\n1 tick 0 1\nend\n",
            b"line 8 tick 0 differs",
        ),
        (
            b"fire 0 1 0\nfire 2 1 0\n1 tick 1 1\r\nend\n",
            b"line 8 tick 0 differs",
        ),
        (
            b"fire 0 1 0\nfire 2 1 0\n1 tick 1 1\nfire 0 1 0\n",
            b"line 9 tick 1 differs",
        ),
        (
            b"fire 0 1 0\nfire 2 1 0\n1 tick 1 1\nnodes 1\nnodes 1\n",
            b"line 10 tick 1 differs",
        ),
        (
            b"fire 0 1 0\nfire 2 1 0\n1 tick 1 1\nend\r\n",
            b"line 9 tick 1 differs",
        ),
        (
            b"fire 0 1 0\nfire 2 1 0\n1 tick 1 1\nend\n\n",
            b"line 10 tick 1 trailing",
        ),
        (
            b"fire 0 1 0\nfire 2 1 0\n1 tick 1 1\nend\nend",
            b"line 10 tick 1 trailing",
        ),
    ];
    for (more, why) in rows {
        let text = behind_head(alloc, more)?;
        let outcome = checked(alloc, &build, TWINS_SCRIPT, &text, NONE)?;
        assert!(rt; is_bad(alloc, &outcome, why)?, "{more:?}");
    }
    Ok(())
}

// Whether nothing was written but the line of an order that is bad so.
fn is_bad(alloc: Global, outcome: &Outcome, why: &[u8]) -> Result<bool, Fail> {
    let mut line = Vec::from_slice(alloc, b"redpile: order: ")?;
    line.extend_from_slice(why)?;
    line.push(b'\n')?;
    Ok(is_refused(outcome, Status::BadOrder, &line))
}

/// Bad lines before the tick, by the whole text.
#[test]
fn bad_heads(rt: HostRuntime) -> Result<(), Fail> {
    let alloc = rt.alloc();
    let build = write_build(alloc, &box_of(&rt, alloc, [3, 3, 1], &TWINS)?)?;
    let rows: [(&[u8], &[u8]); 8] = [
        (b"", b"line 1 tick 0 short"),
        (b"outputs 2", b"line 1 tick 0 short"),
        (b"graph 4 3\noutputs 2\n", b"line 1 tick 0 differs"),
        (b"outputs 2\r\n", b"line 1 tick 0 differs"),
        (
            b"outputs 2\n2 0 0 lamp\n0 0 0 lamp\n",
            b"line 2 tick 0 differs",
        ),
        (
            b"outputs 2\n0 0 0 lamp\n2 0 0 lamp\n0 start 0 1\n",
            b"line 4 tick 0 differs",
        ),
        (
            b"outputs 2\n0 0 0 lamp\n2 0 0 lamp\n0 start 1 1\nfire 0 1 0\n",
            b"line 5 tick 0 differs",
        ),
        (
            b"outputs 2\n0 0 0 lamp\n2 0 0 lamp\n0 start 1 1\n0 press 1 1\n",
            b"line 5 tick 0 differs",
        ),
    ];
    for (text, why) in rows {
        let outcome = checked(alloc, &build, TWINS_SCRIPT, text, NONE)?;
        assert!(rt; is_bad(alloc, &outcome, why)?, "{text:?}");
    }
    Ok(())
}

/// The repeater has the lesser priority number, so it fires first.
#[test]
fn torch_before_repeater(rt: HostRuntime) -> Result<(), Fail> {
    let alloc = rt.alloc();
    let cells = [
        (0, 0, 0, "lever[face=wall,facing=west]"),
        (1, 0, 0, "stone"),
        (2, 0, 0, "repeater[facing=west]"),
        (1, 0, 1, "redstone_wall_torch[facing=south]"),
    ];
    let build = write_build(alloc, &box_of(&rt, alloc, [3, 1, 2], &cells)?)?;
    let script = b"use 0 0 0\ntick 1";
    let lawful =
        b"outputs 0\n0 start\n0 use\nfire 2 0 0\nfire 1 0 1\n1 tick\nnodes 3 links 2 events 3\nend\n";
    let outcome = checked(alloc, &build, script, lawful, NONE)?;
    writes(&rt, &outcome, b"ticks 1 fires 2\nend\n");
    let swapped =
        b"outputs 0\n0 start\n0 use\nfire 1 0 1\nfire 2 0 0\n1 tick\nnodes 3 links 2 events 3\nend\n";
    let outcome = checked(alloc, &build, script, swapped, NONE)?;
    assert!(rt; is_bad(alloc, &outcome, b"line 4 tick 0 priority")?);
    Ok(())
}

/// What `run --keep --order` writes of the gate is taken, and of another script it isn't.
#[test]
fn order_of_the_and_gate(rt: HostRuntime) -> Result<(), Fail> {
    let alloc = rt.alloc();
    let script = b"use 0 0 0\ntick 4\nuse 2 0 0\ntick 4\nuse 0 0 0\ntick 6\n";
    let file = gate_file(alloc)?;
    let shown = by(alloc, ORDERED, &file, script, NONE)?;
    assert_eq!(rt; shown.status, Status::Done);
    let outcome = checked(alloc, &file, script, &shown.out, NONE)?;
    writes(&rt, &outcome, b"ticks 14 fires 6\nend\n");
    let other = b"use 0 0 0\ntick 3\nuse 2 0 0\ntick 5\nuse 0 0 0\ntick 6\n";
    let outcome = checked(alloc, &file, other, &shown.out, NONE)?;
    assert!(rt; is_bad(alloc, &outcome, b"line 9 tick 3 differs")?);
    let with_graph = ["run", "a", "b", "--graph", "--keep", "--order"];
    let shown = by(alloc, &with_graph, &file, script, NONE)?;
    let outcome = checked(alloc, &file, script, &shown.out, NONE)?;
    assert!(rt; is_bad(alloc, &outcome, b"line 1 tick 0 differs")?);
    Ok(())
}

/// The build is read first, then the script, then the order; each of them, and the text, may fail.
#[test]
fn checks_in_order(rt: HostRuntime) -> Result<(), Fail> {
    let alloc = rt.alloc();
    let build = write_build(alloc, &box_of(&rt, alloc, [3, 3, 1], &TWINS)?)?;
    let outcome = checked(alloc, b"", b"x", b"x", NONE)?;
    assert_eq!(rt; outcome.status, Status::BadBuild);
    let outcome = checked(alloc, &build, b"x", b"x", NONE)?;
    assert_eq!(rt; outcome.status, Status::BadScript);
    let files = [("a", build.as_slice()), ("b", TWINS_SCRIPT)];
    let outcome = call(alloc, CHECK, &files, NONE)?;
    assert!(rt; is_refused(&outcome, Status::ReadFault, b"redpile: read fault\n"));
    let text = behind_head(alloc, b"fire 0 1 0\nfire 2 1 0\n1 tick 1 1\nend\n")?;
    let full = Faults { out: &[0], ..NONE };
    let outcome = checked(alloc, &build, TWINS_SCRIPT, &text, full)?;
    assert!(rt; is_refused(&outcome, Status::WriteFault, b"redpile: write fault\n"));
    let second = Faults { out: &[1], ..NONE };
    let outcome = checked(alloc, &build, TWINS_SCRIPT, &text, second)?;
    writes(&rt, &outcome, b"ticks 1 fires 2\nend\n");
    Ok(())
}

/// An order of 268,435,456 bytes is read, and one byte more is refused.
#[test]
fn longest_order(rt: HostRuntime) -> Result<(), Fail> {
    let alloc = rt.alloc();
    let build = write_build(alloc, &box_of(&rt, alloc, [3, 3, 1], &TWINS)?)?;
    let mut text = vec![in alloc; b'x'; 268_435_456]?;
    let outcome = checked(alloc, &build, TWINS_SCRIPT, &text, NONE)?;
    assert!(rt; is_bad(alloc, &outcome, b"line 1 tick 0 short")?);
    text.push(b'x')?;
    let outcome = checked(alloc, &build, TWINS_SCRIPT, &text, NONE)?;
    assert!(rt; is_bad(alloc, &outcome, b"line 0 too long")?);
    Ok(())
}
