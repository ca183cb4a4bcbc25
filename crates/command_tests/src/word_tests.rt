//! Scripts, words of the command line and codes of statuses.

use crate::support::{
    COMPILE, EMPTY_BOX, NONE, RUN, WORLD, by, call, is_refused, lever_and_lamp_file, run,
};
use redpile_top::Status;
use std::alloc::Global;
use std::process::Abort;
use std::test::Fail;

/// Whether each command over the lever and the lamp refuses this script by this line.
fn is_bad_script(alloc: Global, text: &[u8], line: &[u8]) -> Result<bool, Fail> {
    let build = lever_and_lamp_file(alloc)?;
    let mut refused = true;
    for words in [RUN, WORLD, COMPILE] {
        let outcome = by(alloc, words, &build, text, NONE)?;
        refused &= is_refused(&outcome, Status::BadScript, line);
    }
    Ok(refused)
}

/// The rows `bad_scripts`, and those of hostile files that are about scripts.
#[test]
fn bad_scripts(rt: HostRuntime) -> Result<(), Fail> {
    let alloc = rt.alloc();
    let rows: [(&[u8], &[u8]); 8] = [
        (
            b"use 0 0 0\ntick 1\nuse 1 0 0\n",
            b"redpile: script: line 3 not clickable\n",
        ),
        (b"tick 100001", b"redpile: script: line 1 too many ticks\n"),
        (b"mark 1 0 0", b"redpile: script: line 1 not wire\n"),
        (b"tick 01", b"redpile: script: line 1 number\n"),
        (b"jump", b"redpile: script: line 1 word\n"),
        (
            b"use 4294967295 0 0",
            b"redpile: script: line 1 not clickable\n",
        ),
        (b"use 4294967296 0 0", b"redpile: script: line 1 number\n"),
        (b"tick 1\r\r\n", b"redpile: script: line 1 number\n"),
    ];
    for (text, line) in rows {
        assert!(rt; is_bad_script(alloc, text, line)?, "{text:?}");
    }
    let script = b"# a comment\n\n  use\t0 0 0 \r\ntick 1";
    let outcome = run(alloc, &lever_and_lamp_file(alloc)?, script, NONE)?;
    assert_eq!(rt; outcome.status, Status::Done);
    Ok(())
}

/// The file's first byte is an LF, so that the first line is empty.
#[test]
fn one_name_twice(rt: HostRuntime) -> Result<(), Fail> {
    let alloc = rt.alloc();
    let line = b"redpile: script: line 2 word\n";
    for command in ["run", "world", "compile"] {
        let outcome = call(alloc, &[command, "a", "a"], &[("a", EMPTY_BOX)], NONE)?;
        assert!(rt; is_refused(&outcome, Status::BadScript, line));
    }
    Ok(())
}

fn is_usage(alloc: Global, words: &[&str]) -> Result<bool, Fail> {
    let outcome = call(alloc, words, &[("a", EMPTY_BOX), ("b", b"")], NONE)?;
    Ok(is_refused(&outcome, Status::Usage, b"redpile: usage\n"))
}

/// Asserts that these words have no form.
fn all_are_usage(rt: &impl Abort, alloc: Global, rows: &[&[&str]]) -> Result<(), Fail> {
    for words in rows {
        assert!(rt; is_usage(alloc, words)?, "{words:?}");
    }
    Ok(())
}

#[test]
fn usage(rt: HostRuntime) -> Result<(), Fail> {
    let words: [&[&str]; 19] = [
        &[],
        &["world"],
        &["world", "a"],
        &["run", "a"],
        &["compile", "a"],
        &["World", "a", "b"],
        &["--help", "a", "b"],
        &["bench"],
        &["bench", "0"],
        &["bench", "4001"],
        &["bench", "1", "1"],
        &["check"],
        &["check", "a"],
        &["check", "a", "b"],
        &["check", "a", "b", "c", "d"],
        &["play"],
        &["play", "a"],
        &["play", "a", "b", "c"],
        &["play", "a", "b", "--graph"],
    ];
    all_are_usage(&rt, rt.alloc(), &words)
}

#[test]
fn usage_of_flags(rt: HostRuntime) -> Result<(), Fail> {
    let words: [&[&str]; 19] = [
        &["run", "a", "b", "--order"],
        &["run", "a", "b", "--graph", "--order"],
        &["run", "a", "b", "--order", "--keep"],
        &["run", "a", "b", "--keep", "--order", "--order"],
        &["run", "a", "b", "--keep", "--graph", "--order"],
        &["world", "a", "b", "c"],
        &["world", "a", "b", "--keep"],
        &["compile", "a", "b", "--graph"],
        &["compile", "a", "b", "--json", "--json"],
        &["compile", "--json", "a", "b"],
        &["world", "a", "b", "--json"],
        &["run", "a", "b", "--json"],
        &["run", "a", "b", "--Keep"],
        &["run", "--keep", "a", "b"],
        &["run", "a", "b", "--keep", "--graph"],
        &["run", "a", "b", "--graph", "--graph"],
        &["run", "a", "b", "--keep", "--keep"],
        &["world", "a", "b", "--graph", "--keep"],
        &["run", "a", "b", "--graph", "--keep", "--keep"],
    ];
    all_are_usage(&rt, rt.alloc(), &words)
}

/// A script of 1,048,576 bytes is read, and one byte more is refused.
#[test]
fn longest_comment(rt: HostRuntime) -> Result<(), Fail> {
    let alloc = rt.alloc();
    let mut text = vec![in alloc; b'#'; 1_048_576]?;
    let outcome = run(alloc, EMPTY_BOX, &text, NONE)?;
    assert_eq!(rt; outcome.status, Status::Done);
    text.push(b'#')?;
    let outcome = run(alloc, EMPTY_BOX, &text, NONE)?;
    let line = b"redpile: script: line 0 too long\n";
    assert!(rt; is_refused(&outcome, Status::BadScript, line));
    Ok(())
}

#[test]
fn codes(rt: HostRuntime) {
    let statuses = [
        (Status::Done, 0),
        (Status::Usage, 2),
        (Status::ReadFault, 3),
        (Status::WriteFault, 4),
        (Status::BadBuild, 5),
        (Status::BadBlock, 6),
        (Status::BadScript, 7),
        (Status::BadOrder, 8),
        (Status::NoMemory, 9),
        (Status::BadGraph, 10),
    ];
    for (status, code) in statuses {
        assert_eq!(rt; status.code(), code);
    }
}
