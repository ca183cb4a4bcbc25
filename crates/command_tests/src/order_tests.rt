//! Runs that show their order, and the pieces that the sinks are handed.

use crate::row_tests::{TWINS, box_of};
use crate::support::{
    Faults, NONE, by, gate_file, lever_and_lamp_file, unknown_block_file, writes,
};
use redpile_top::Status;
use schem_write::{write_build, write_build3};
use std::alloc::Global;
use std::process::Abort;
use std::test::Fail;

const ORDERED: &[&str] = &["run", "a", "b", "--keep", "--order"];

#[test]
fn shown_order_of_twins(rt: HostRuntime) -> Result<(), Fail> {
    let alloc = rt.alloc();
    let build = box_of(&rt, alloc, [3, 3, 1], &TWINS)?;
    for file in [write_build(alloc, &build)?, write_build3(alloc, &build)?] {
        writes(
            &rt,
            &by(alloc, ORDERED, &file, b"use 1 2 0\ntick 1", NONE)?,
            b"outputs 2\n0 0 0 lamp\n2 0 0 lamp\n0 start 1 1\n0 use 1 1\nfire 0 1 0\nfire 2 1 0\n1 tick 1 1\nnodes 4 links 3 events 2\nend\n",
        );
    }
    Ok(())
}

#[test]
fn repeater_before_torch(rt: HostRuntime) -> Result<(), Fail> {
    let alloc = rt.alloc();
    let cells = [
        (0, 0, 0, "lever[face=wall,facing=west]"),
        (1, 0, 0, "stone"),
        (2, 0, 0, "repeater[facing=west]"),
        (1, 0, 1, "redstone_wall_torch[facing=south]"),
    ];
    let build = box_of(&rt, alloc, [3, 1, 2], &cells)?;
    writes(
        &rt,
        &by(
            alloc,
            ORDERED,
            &write_build(alloc, &build)?,
            b"use 0 0 0\ntick 1",
            NONE,
        )?,
        b"outputs 0\n0 start\n0 use\nfire 2 0 0\nfire 1 0 1\n1 tick\nnodes 3 links 2 events 3\nend\n",
    );
    Ok(())
}

/// With the text of the graph before it, too.
#[test]
fn shown_order_of_the_and_gate(rt: HostRuntime) -> Result<(), Fail> {
    let alloc = rt.alloc();
    let script = b"use 0 0 0\ntick 4\nuse 2 0 0\ntick 4\nuse 0 0 0\ntick 6\n";
    let run =
        b"outputs 1\n1 0 3 lamp\n0 start 0\n0 use 0\nfire 0 1 1\n1 tick 0\n2 tick 0\n3 tick 0\n4 tick 0\n4 use 0\nfire 2 1 1\n5 tick 0\nfire 1 0 2\n6 tick 1\n7 tick 1\n8 tick 1\n8 use 1\nfire 0 1 1\n9 tick 1\nfire 1 0 2\n10 tick 1\n11 tick 1\nfire 1 0 3\n12 tick 0\n13 tick 0\n14 tick 0\nnodes 6 links 5 events 9\nend\n".as_slice();
    let file = gate_file(alloc)?;
    writes(&rt, &by(alloc, ORDERED, &file, script, NONE)?, run);
    let with_graph = ["run", "a", "b", "--graph", "--keep", "--order"];
    let outcome = by(alloc, &with_graph, &file, script, NONE)?;
    assert_eq!(rt; outcome.status, Status::Done);
    assert!(rt; outcome.out.starts_with(b"graph 6 5\n"));
    assert!(rt; outcome.out.ends_with(run));
    Ok(())
}

// Asserts that the text comes in so many pieces, of which this is the first.
fn comes_in(
    rt: &impl Abort,
    alloc: Global,
    words: &[&str],
    pieces: u64,
    first: &[u8],
) -> Result<(), Fail> {
    let build = lever_and_lamp_file(alloc)?;
    let script = b"use 0 0 0\ntick 1\nuse 0 0 0\ntick 2\n";
    let whole = by(alloc, words, &build, script, NONE)?;
    assert_eq!(rt; whole.status, Status::Done, "{words:?}");
    assert_eq!(rt; whole.written, pieces, "{words:?}");
    let outcome = by(alloc, words, &build, script, Faults { out: &[1], ..NONE })?;
    if pieces == 1 {
        writes(rt, &outcome, &whole.out);
    } else {
        assert_eq!(rt; outcome.status, Status::WriteFault, "{words:?}");
        assert_eq!(rt; outcome.out.as_slice(), first, "{words:?}");
    }
    Ok(())
}

/// A graph, a header, each line of a view, each line of what fired, and a trailer are a piece each;
/// what `compile` and `bench` write is one piece.
#[test]
fn pieces(rt: HostRuntime) -> Result<(), Fail> {
    let alloc = rt.alloc();
    let header = b"outputs 1\n2 0 0 lamp\n".as_slice();
    let graph =
        b"graph 2 1\nnode 0 lever 0 0 0 0\nnode 1 lamp 2 0 0 0\nlink 0 1 back 0\n".as_slice();
    comes_in(&rt, alloc, &["world", "a", "b"], 8, header)?;
    comes_in(&rt, alloc, &["run", "a", "b"], 8, header)?;
    comes_in(&rt, alloc, &["run", "a", "b", "--graph"], 9, graph)?;
    comes_in(&rt, alloc, ORDERED, 9, header)?;
    comes_in(
        &rt,
        alloc,
        &["run", "a", "b", "--graph", "--keep", "--order"],
        10,
        graph,
    )?;
    comes_in(&rt, alloc, &["compile", "a", "b"], 1, b"")?;
    comes_in(&rt, alloc, &["bench", "1"], 1, b"")
}

/// The line of a block is three pieces, and that of another fault is one.
#[test]
fn pieces_of_fault_lines(rt: HostRuntime) -> Result<(), Fail> {
    let alloc = rt.alloc();
    let file = unknown_block_file(alloc)?;
    let rows: [(&[u64], &[u8]); 3] = [
        (&[0], b""),
        (&[1], b"redpile: block: "),
        (&[2], b"redpile: block: minecraft:observer[facing=up]"),
    ];
    for (err, line) in rows {
        let outcome = by(
            alloc,
            &["run", "a", "b"],
            &file,
            b"",
            Faults { err, ..NONE },
        )?;
        assert_eq!(rt; outcome.status, Status::BadBlock);
        assert_eq!(rt; outcome.err.as_slice(), line);
    }
    let second = Faults { err: &[1], ..NONE };
    let outcome = by(alloc, &["run", "a", "b"], b"\x1f\x8b", b"", second)?;
    assert_eq!(rt; outcome.status, Status::BadBuild);
    assert_eq!(rt;
        outcome.err.as_slice(),
        b"redpile: build: compressed\n".as_slice()
    );
    Ok(())
}
