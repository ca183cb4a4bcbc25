//! A box of air, and a lever beside lamps and torches, by each command.

use crate::support::{
    EMPTY_BOX, EMPTY_COUNTS, EMPTY_VIEWS, Faults, LAMP, LEVER, NONE, STONE, TORCH, TWO_CLICKS, by,
    call, compile, joined, lever_and_lamp_file, pending, row_of, run, shows, world, writes,
};
use std::test::Fail;

#[test]
fn empty_box(rt: HostRuntime) -> Result<(), Fail> {
    assert_eq!(rt; EMPTY_BOX.len(), 86);
    shows(
        &rt,
        rt.alloc(),
        EMPTY_BOX,
        b"tick 1",
        EMPTY_VIEWS,
        EMPTY_COUNTS,
    )
}

/// From a file of few fields.
#[test]
fn lever_and_lamp(rt: HostRuntime) -> Result<(), Fail> {
    let alloc = rt.alloc();
    shows(
        &rt,
        alloc,
        &lever_and_lamp_file(alloc)?,
        TWO_CLICKS,
        b"outputs 1\n2 0 0 lamp\n0 start 0\n0 use 1\n1 tick 1\n1 use 1\n2 tick 1\n3 tick 0\n",
        b"nodes 2 links 1 events 3\n",
    )
}

#[test]
fn lever_and_lamp_one_click(rt: HostRuntime) -> Result<(), Fail> {
    let alloc = rt.alloc();
    let outcome = world(alloc, &lever_and_lamp_file(alloc)?, b"use 0 0 0", NONE)?;
    writes(
        &rt,
        &outcome,
        b"outputs 1\n2 0 0 lamp\n0 start 0\n0 use 1\nend\n",
    );
    Ok(())
}

/// Also with each piece cut into parts of three bytes.
#[test]
fn lever_torch_and_lamp(rt: HostRuntime) -> Result<(), Fail> {
    let alloc = rt.alloc();
    let build = row_of(alloc, &[LEVER, STONE, TORCH, LAMP])?;
    let script = b"use 0 0 0\ntick 3\n";
    let views =
        b"outputs 1\n3 0 0 lamp\n0 start 1\n0 use 1\n1 tick 1\n2 tick 1\n3 tick 0\n".as_slice();
    let counts = b"nodes 3 links 2 events 3\n".as_slice();
    shows(&rt, alloc, &build, script, views, counts)?;
    let outcome = run(alloc, &build, script, Faults { chunk: 3, ..NONE })?;
    writes(&rt, &outcome, &joined(alloc, &[views, counts, b"end\n"])?);
    Ok(())
}

#[test]
fn bench_summary(rt: HostRuntime) -> Result<(), Fail> {
    let alloc = rt.alloc();
    let rows: [(&str, &[u8]); 2] = [
        ("1", b"bench 1\non 3 of 4\nnodes 12 links 9 events 0\nend\n"),
        (
            "4",
            b"bench 4\non 9 of 16\nnodes 48 links 36 events 17\nend\n",
        ),
    ];
    for (units, text) in rows {
        writes(&rt, &call(alloc, &["bench", units], &[], NONE)?, text);
    }
    Ok(())
}

#[test]
fn largest_bench(rt: HostRuntime) -> Result<(), Fail> {
    let outcome = call(rt.alloc(), &["bench", "4000"], &[], NONE)?;
    writes(
        &rt,
        &outcome,
        b"bench 4000\non 9000 of 16000\nnodes 48000 links 36000 events 17000\nend\n",
    );
    Ok(())
}

/// The text of the graph stands before the header.
#[test]
fn run_with_its_graph(rt: HostRuntime) -> Result<(), Fail> {
    let alloc = rt.alloc();
    let build = pending(alloc, [2, 0, 0, 1, 3])?;
    let graph =
        b"graph 2 1\nnode 0 lever 0 0 0 0\nnode 1 lamp 2 0 0 0 due 1 priority 3\nlink 0 1 back 0\n".as_slice();
    let played =
        b"outputs 1\n2 0 0 lamp\n0 start 0\n1 tick 0\nnodes 2 links 1 events 1\nend\n".as_slice();
    let text = joined(alloc, &[graph, played])?;
    let flags: [&[&str]; 2] = [
        &["run", "a", "b", "--graph"],
        &["run", "a", "b", "--graph", "--keep"],
    ];
    for words in flags {
        writes(&rt, &by(alloc, words, &build, b"tick 1", NONE)?, &text);
    }
    let outcome = compile(alloc, &build, b"tick 1", NONE)?;
    writes(&rt, &outcome, &joined(alloc, &[graph, b"end\n"])?);
    Ok(())
}

/// The graph as one line of JSON, in one piece.
#[test]
fn graph_file_of_lever_and_lamp(rt: HostRuntime) -> Result<(), Fail> {
    let alloc = rt.alloc();
    let build = lever_and_lamp_file(alloc)?;
    let script = b"use 0 0 0\ntick 1\nuse 0 0 0\ntick 2";
    let line =
        b"{\"links\":[[0,1,0,0]],\"nodes\":[{\"also\":[],\"at\":[0,0,0],\"due\":0,\"first\":false,\"kind\":\"lever\",\"priority\":0,\"state\":0},{\"also\":[],\"at\":[2,0,0],\"due\":0,\"first\":false,\"kind\":\"lamp\",\"priority\":0,\"state\":0}],\"redpile\":1}\n";
    let second = Faults { out: &[1], ..NONE };
    writes(
        &rt,
        &by(
            alloc,
            &["compile", "a", "b", "--json"],
            &build,
            script,
            second,
        )?,
        line,
    );
    Ok(())
}
