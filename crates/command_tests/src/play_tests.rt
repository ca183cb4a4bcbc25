//! Graph files that are played.

use crate::row_tests::locked;
use crate::support::{Faults, NONE, Outcome, by, call, is_refused, lever_and_lamp_file, writes};
use redpile_top::Status;
use schem_write::write_build;
use std::alloc::Global;
use std::process::Abort;
use std::test::Fail;

const PLAY: &[&str] = &["play", "a", "b"];

const JSON: &[&str] = &["compile", "a", "b", "--json"];

const LEVER_AND_LAMP: &str =
    "{\"links\":[[0,1,0,0]],\"nodes\":[{\"also\":[],\"at\":[0,0,0],\"due\":0,\"first\":false,\"kind\":\"lever\",\"priority\":0,\"state\":0},{\"also\":[],\"at\":[2,0,0],\"due\":0,\"first\":false,\"kind\":\"lamp\",\"priority\":0,\"state\":0}],\"redpile\":1}\n";

const BACK_AND_LOCK: &str =
    "{\"links\":[[0,1,0,1],[0,2,0,1],[2,3,0,0],[1,3,1,0],[3,4,0,0]],\"nodes\":[{\"also\":[],\"at\":[0,1,0],\"due\":0,\"first\":false,\"kind\":\"lever\",\"priority\":0,\"state\":0},{\"also\":[],\"at\":[2,1,1],\"delay\":1,\"due\":0,\"first\":true,\"kind\":\"repeater\",\"priority\":0,\"state\":0},{\"also\":[],\"at\":[1,1,2],\"delay\":1,\"due\":0,\"first\":true,\"kind\":\"repeater\",\"priority\":0,\"state\":0},{\"also\":[],\"at\":[2,1,2],\"delay\":1,\"due\":0,\"first\":false,\"kind\":\"repeater\",\"priority\":0,\"state\":0},{\"also\":[],\"at\":[3,1,2],\"due\":0,\"first\":false,\"kind\":\"lamp\",\"priority\":0,\"state\":0}],\"redpile\":1}\n";

/// Two clicks of the lever.
const TWO_CLICKS: &[u8] = b"use 0 0 0\ntick 1\nuse 0 0 0\ntick 2\n";

const SHOWN: &[u8] =
    b"outputs 1\n2 0 0 lamp\n0 start 0\n0 use 1\n1 tick 1\n1 use 1\n2 tick 1\n3 tick 0\nnodes 2 links 1 events 3\nend\n";

fn played(alloc: Global, graph: &[u8], script: &[u8], faults: Faults) -> Result<Outcome, Fail> {
    by(alloc, PLAY, graph, script, faults)
}

/// Asserts that the file is refused by this line.
fn refuses(rt: &impl Abort, alloc: Global, graph: &[u8], why: &str) -> Result<(), Fail> {
    let outcome = played(alloc, graph, TWO_CLICKS, NONE)?;
    let line = format!(in alloc; "redpile: graph: {why}\n")?;
    assert!(rt;
        is_refused(&outcome, Status::BadGraph, line.as_bytes()),
        "{why} {graph:?}"
    );
    Ok(())
}

/// The header, each view line and the trailer are one piece each.
#[test]
fn lever_and_lamp(rt: HostRuntime) -> Result<(), Fail> {
    let alloc = rt.alloc();
    let file = by(alloc, JSON, &lever_and_lamp_file(alloc)?, TWO_CLICKS, NONE)?;
    writes(&rt, &file, LEVER_AND_LAMP.as_bytes());
    let outcome = played(alloc, &file.out, TWO_CLICKS, NONE)?;
    writes(&rt, &outcome, SHOWN);
    assert_eq!(rt; outcome.written, 8);
    Ok(())
}

/// The number of events isn't the same in every order.
#[test]
fn back_and_lock(rt: HostRuntime) -> Result<(), Fail> {
    let alloc = rt.alloc();
    let build = write_build(alloc, &locked(&rt, alloc)?)?;
    let file = by(alloc, JSON, &build, b"", NONE)?;
    writes(&rt, &file, BACK_AND_LOCK.as_bytes());
    let outcome = played(alloc, &file.out, b"use 0 1 0\ntick 3", NONE)?;
    let front =
        b"outputs 1\n3 1 2 lamp\n0 start 0\n0 use 0\n1 tick 0\n2 tick 0\n3 tick 0\nnodes 5 links 5 events ";
    assert_eq!(rt; outcome.status, Status::Done);
    assert!(rt; outcome.out.starts_with(front));
    Ok(())
}

/// Outputs of each kind, in order of places and not of nodes.
#[test]
fn each_kind_of_output(rt: HostRuntime) -> Result<(), Fail> {
    let nodes =
        "{\"kind\":\"note\",\"at\":[0,1,0],\"state\":1},{\"kind\":\"wire\",\"at\":[0,0,1],\"state\":0},{\"kind\":\"trapdoor\",\"at\":[1,0,0],\"state\":0},{\"kind\":\"constant\",\"at\":[5,5,5],\"state\":7},{\"kind\":\"lamp\",\"at\":[0,0,0],\"state\":0}";
    let text = file_of(rt.alloc(), nodes, "[3,1,0,2]")?;
    let outcome = played(rt.alloc(), text.as_bytes(), b"mark 0 0 1\n", NONE)?;
    writes(
        &rt,
        &outcome,
        b"outputs 4\n0 0 0 lamp\n1 0 0 trapdoor\n0 0 1 wire\n0 1 0 note\n0 start 0 0 5 0\nnodes 5 links 1 events 0\nend\n",
    );
    Ok(())
}

fn file_of(alloc: Global, nodes: &str, links: &str) -> Result<String, Fail> {
    Ok(format!(in alloc; "{{\"links\":[{links}],\"nodes\":[{nodes}],\"redpile\":1}}")?)
}

#[test]
fn bad_wholes(rt: HostRuntime) -> Result<(), Fail> {
    let files = [
        "[]",
        "7",
        "{}",
        "{\"links\":[],\"nodes\":[]}",
        "{\"links\":[],\"nodes\":[],\"redpile\":2}",
        "{\"links\":[],\"nodes\":[],\"redpile\":\"1\"}",
        "{\"links\":[],\"nodes\":[7],\"redpile\":0}",
        "{\"nodes\":[],\"redpile\":1}",
        "{\"links\":[],\"nodes\":{},\"redpile\":1}",
        "{\"links\":[7],\"redpile\":1}",
        "{\"links\":null,\"nodes\":[7],\"redpile\":1}",
    ];
    for file in files {
        refuses(&rt, rt.alloc(), file.as_bytes(), "whole")?;
    }
    Ok(())
}

const LEVER: &str = "{\"kind\":\"lever\",\"at\":[0,0,0],\"state\":0}";

/// Asserts that a lever, this node and a bad link are refused so at the node.
fn refuses_node(rt: &impl Abort, alloc: Global, node: &str, kind: &str) -> Result<(), Fail> {
    let nodes = format!(in alloc; "{LEVER},{node}")?;
    let text = file_of(alloc, nodes.as_str(), "7")?;
    let why = format!(in alloc; "node 1 {kind}")?;
    refuses(rt, alloc, text.as_bytes(), why.as_str())
}

/// Asserts that each node with these members is refused so, also before bad nodes.
fn refuse_nodes(rt: &impl Abort, alloc: Global, rows: &[&str], kind: &str) -> Result<(), Fail> {
    for members in rows {
        let node = format!(in alloc; "{{{members}}},7")?;
        refuses_node(rt, alloc, node.as_str(), kind)?;
    }
    Ok(())
}

/// What a node says is absent or of another kind. That counts before a number out of its range.
#[test]
fn bad_fields(rt: HostRuntime) -> Result<(), Fail> {
    let rows = [
        "",
        "\"kind\":\"piston\",\"at\":[1,0,0],\"state\":0",
        "\"kind\":\"Lamp\",\"at\":[1,0,0],\"state\":0",
        "\"kind\":1,\"at\":[1,0,0],\"state\":9",
        "\"kind\":\"lamp\",\"state\":9",
        "\"kind\":\"lamp\",\"at\":[1,0],\"state\":9",
        "\"kind\":\"lamp\",\"at\":[1,0,0,0],\"state\":0",
        "\"kind\":\"lamp\",\"at\":[1,0,-1],\"state\":0",
        "\"kind\":\"lamp\",\"at\":[70000,0,\"0\"],\"state\":0",
        "\"kind\":\"lamp\",\"at\":[70000,0,0]",
        "\"kind\":\"lamp\",\"at\":[1,0,0],\"state\":false",
    ];
    refuse_nodes(&rt, rt.alloc(), &rows, "field")?;
    refuses_node(&rt, rt.alloc(), "7", "field")?;
    refuses_node(&rt, rt.alloc(), "[]", "field")
}

/// Asserts that each node of this kind at 1, 0, 0 with these members is refused so.
fn refuse_at(
    rt: &impl Abort,
    alloc: Global,
    kind: &str,
    rows: &[&str],
    why: &str,
) -> Result<(), Fail> {
    for members in rows {
        let node = format!(in alloc; "{{\"kind\":\"{kind}\",\"at\":[1,0,0],{members}}},7")?;
        refuses_node(rt, alloc, node.as_str(), why)?;
    }
    Ok(())
}

#[test]
fn bad_fields_of_kinds(rt: HostRuntime) -> Result<(), Fail> {
    let alloc = rt.alloc();
    let delays = ["\"state\":0", "\"state\":2,\"delay\":\"1\""];
    refuse_at(&rt, alloc, "repeater", &delays, "field")?;
    refuse_at(&rt, alloc, "button", &delays, "field")?;
    let comparators = [
        "\"state\":16",
        "\"state\":0,\"subtract\":0",
        "\"state\":0,\"subtract\":true,\"direct\":null",
        "\"state\":0,\"subtract\":true,\"far\":-1",
    ];
    refuse_at(&rt, alloc, "comparator", &comparators, "field")?;
    let lamps = [
        "\"state\":0,\"due\":null",
        "\"state\":0,\"priority\":false",
        "\"state\":0,\"first\":0",
        "\"state\":0,\"also\":7",
        "\"state\":2,\"also\":[7]",
        "\"state\":0,\"also\":[[0,0,0],[1,0]]",
    ];
    refuse_at(&rt, alloc, "lamp", &lamps, "field")
}

/// A number is out of its range. That counts before a place that stood before.
#[test]
fn bad_ranges(rt: HostRuntime) -> Result<(), Fail> {
    let alloc = rt.alloc();
    let rows = [
        "\"kind\":\"lamp\",\"at\":[65536,0,0],\"state\":0",
        "\"kind\":\"lamp\",\"at\":[0,65536,0],\"state\":0",
        "\"kind\":\"lamp\",\"at\":[0,0,18446744073709551615],\"state\":0",
        "\"kind\":\"lamp\",\"at\":[0,0,0],\"state\":2",
    ];
    refuse_nodes(&rt, alloc, &rows, "range")?;
    let delays = [
        "\"state\":0,\"delay\":0",
        "\"state\":0,\"delay\":5",
        "\"state\":2,\"delay\":1",
    ];
    refuse_at(&rt, alloc, "repeater", &delays, "range")?;
    refuse_at(&rt, alloc, "button", &delays, "range")?;
    let comparators = [
        "\"state\":16,\"subtract\":true",
        "\"state\":0,\"subtract\":true,\"direct\":16",
        "\"state\":0,\"subtract\":true,\"far\":16",
    ];
    refuse_at(&rt, alloc, "comparator", &comparators, "range")?;
    refuse_at(&rt, alloc, "constant", &["\"state\":16"], "range")?;
    refuse_at(&rt, alloc, "weighted", &["\"state\":16"], "range")?;
    let unticking = ["\"state\":1", "\"state\":0,\"due\":1"];
    refuse_at(&rt, alloc, "wire", &unticking, "range")?;
    let lamps = [
        "\"state\":0,\"due\":16",
        "\"state\":0,\"due\":1,\"priority\":4",
        "\"state\":0,\"priority\":1",
        "\"state\":0,\"also\":[[1,0,0],[0,0,65536]]",
    ];
    refuse_at(&rt, alloc, "lamp", &lamps, "range")
}

#[test]
fn bad_places(rt: HostRuntime) -> Result<(), Fail> {
    let rows = [
        "\"kind\":\"lamp\",\"at\":[0,0,0],\"state\":0",
        "\"kind\":\"lamp\",\"at\":[1,0,0],\"state\":0,\"also\":[[1,0,0]]",
        "\"kind\":\"lamp\",\"at\":[1,0,0],\"state\":0,\"also\":[[2,0,0],[0,0,0]]",
        "\"kind\":\"lamp\",\"at\":[1,0,0],\"state\":0,\"also\":[[2,0,0],[2,0,0]]",
    ];
    refuse_nodes(&rt, rt.alloc(), &rows, "place")
}

/// Asserts that between two nodes a good link, this one and a bad one are refused so.
fn refuses_link(rt: &impl Abort, alloc: Global, link: &str, kind: &str) -> Result<(), Fail> {
    let nodes =
        "{\"kind\":\"lever\",\"at\":[0,0,0],\"state\":0},{\"kind\":\"lamp\",\"at\":[1,0,0],\"state\":0}";
    let links = format!(in alloc; "[0,1,0,0],{link},7")?;
    let text = file_of(alloc, nodes, links.as_str())?;
    let why = format!(in alloc; "link 1 {kind}")?;
    refuses(rt, alloc, text.as_bytes(), why.as_str())
}

#[test]
fn bad_links(rt: HostRuntime) -> Result<(), Fail> {
    let rows = [
        ("7", "field"),
        ("{}", "field"),
        ("[2,2,2]", "field"),
        ("[0,1,0,0,0]", "field"),
        ("[2,2,2,\"0\"]", "field"),
        ("[2,2,2,-1]", "field"),
        ("[0,2,2,16]", "end"),
        ("[2,1,0,0]", "end"),
        ("[0,4294967296,0,0]", "end"),
        ("[0,1,2,0]", "range"),
        ("[0,1,1,16]", "range"),
    ];
    for (link, kind) in rows {
        refuses_link(&rt, rt.alloc(), link, kind)?;
    }
    Ok(())
}

/// Bytes that Rust's serde_json refuses too.
#[test]
fn no_json(rt: HostRuntime) -> Result<(), Fail> {
    let files: [&[u8]; 20] = [
        b"",
        b" ",
        b"{",
        b"{\"redpile\":2",
        b"{} x",
        b"{}{}",
        b"{}\x00",
        b"\x0c{}",
        b"\xef\xbb\xbf{}",
        b"\xff",
        b"[\"\xff\"]",
        b"[\"\xed\xa0\x80\"]",
        b"[\"\\ud800\"]",
        b"[\"\\udc00\"]",
        b"[\"\\ud800\\ud800\"]",
        b"[\"a\nb\"]",
        b"[01]",
        b"[1,]",
        b"[1e400]",
        b"[NaN]",
    ];
    for file in files {
        refuses(&rt, rt.alloc(), file, "json")?;
    }
    Ok(())
}

fn nested(alloc: Global, depth: usize) -> Result<Vec<u8>, Fail> {
    let mut text = vec![in alloc; b'['; depth]?;
    for _ in 0..depth {
        text.push(b']')?;
    }
    Ok(text)
}

/// Arrays in arrays: 127 are taken, and more aren't, as in Rust's serde_json.
#[test]
fn deepest_json(rt: HostRuntime) -> Result<(), Fail> {
    let alloc = rt.alloc();
    refuses(&rt, alloc, &nested(alloc, 127)?, "whole")?;
    refuses(&rt, alloc, &nested(alloc, 128)?, "json")?;
    refuses(&rt, alloc, &nested(alloc, 100_000)?, "json")
}

/// Numbers that aren't integers from 0 to 18,446,744,073,709,551,615, though they may have the
/// value of one.
#[test]
fn no_numbers(rt: HostRuntime) -> Result<(), Fail> {
    let rows = [
        "1.0",
        "1e0",
        "-0",
        "-1",
        "18446744073709551616",
        "1e300",
        "1e-400",
    ];
    for number in rows {
        let node = format!(in rt.alloc();
            "{{\"kind\":\"lamp\",\"at\":[1,0,0],\"state\":{number}}}"
        )?;
        refuses_node(&rt, rt.alloc(), node.as_str(), "field")?;
    }
    Ok(())
}

/// Space around a value and in it changes nothing, keys that aren't used are passed over, and the
/// last of equal keys counts.
#[test]
fn other_texts_of_lever_and_lamp(rt: HostRuntime) -> Result<(), Fail> {
    let alloc = rt.alloc();
    let spaced = format!(in alloc; " \t\r\n{LEVER_AND_LAMP}\r\n \t")?;
    let twice =
        "{\"redpile\":2,\"nodes\":7,\"links\":[[0,1,0,0]],\"more\":[{},\"\\ud83d\\ude00\",1e300],\"nodes\":[{\"kind\":\"wire\",\"kind\":\"lever\",\"at\":[0,0,0],\"state\":0,\"delay\":99},{\"kind\":\"lamp\",\"at\":[ 2 , 0 , 0 ],\"state\":0}],\"redpile\":1}";
    for text in [spaced.as_str(), twice] {
        let outcome = played(alloc, text.as_bytes(), TWO_CLICKS, NONE)?;
        writes(&rt, &outcome, SHOWN);
    }
    Ok(())
}

/// The script is one of the graph: nothing else takes a click or is marked.
#[test]
fn scripts_of_a_graph(rt: HostRuntime) -> Result<(), Fail> {
    let rows: [(&[u8], &[u8]); 5] = [
        (b"use 1 0 0", b"redpile: script: line 1 not clickable\n"),
        (b"use 2 0 0", b"redpile: script: line 1 not clickable\n"),
        (
            b"tick 1\npress 0 0 0\n",
            b"redpile: script: line 2 not clickable\n",
        ),
        (b"mark 2 0 0", b"redpile: script: line 1 not wire\n"),
        (b"tick", b"redpile: script: line 1 word\n"),
    ];
    for (script, line) in rows {
        let outcome = played(rt.alloc(), LEVER_AND_LAMP.as_bytes(), script, NONE)?;
        assert!(rt; is_refused(&outcome, Status::BadScript, line), "{script:?}");
    }
    Ok(())
}

/// The graph is read first, and its fault counts before the script is read. Each of them, and the
/// text, may fail.
#[test]
fn plays_in_order(rt: HostRuntime) -> Result<(), Fail> {
    let alloc = rt.alloc();
    let graph = LEVER_AND_LAMP.as_bytes();
    let outcome = played(alloc, b"{", b"x", NONE)?;
    assert_eq!(rt; outcome.status, Status::BadGraph);
    let outcome = call(alloc, PLAY, &[("a", b"{")], NONE)?;
    assert_eq!(rt; outcome.status, Status::BadGraph);
    let outcome = call(alloc, PLAY, &[("b", b"x")], NONE)?;
    assert!(rt; is_refused(&outcome, Status::ReadFault, b"redpile: read fault\n"));
    let outcome = call(alloc, PLAY, &[("a", graph)], NONE)?;
    assert!(rt; is_refused(&outcome, Status::ReadFault, b"redpile: read fault\n"));
    let full = Faults { out: &[0], ..NONE };
    let outcome = played(alloc, graph, TWO_CLICKS, full)?;
    assert!(rt; is_refused(&outcome, Status::WriteFault, b"redpile: write fault\n"));
    let second = Faults { out: &[1], ..NONE };
    let outcome = played(alloc, graph, TWO_CLICKS, second)?;
    assert_eq!(rt; outcome.status, Status::WriteFault);
    assert_eq!(rt;
        outcome.out.as_slice(),
        b"outputs 1\n2 0 0 lamp\n".as_slice()
    );
    Ok(())
}

/// A file of 268,435,456 bytes is read, and one byte more is refused.
#[test]
fn longest_graph(rt: HostRuntime) -> Result<(), Fail> {
    let alloc = rt.alloc();
    let mut text = vec![in alloc; b'x'; 268_435_456]?;
    refuses(&rt, alloc, &text, "json")?;
    text.push(b'x')?;
    refuses(&rt, alloc, &text, "too long")
}
