//! Files, calls and what they answer, for the tests of commands.

use redpile_top::{Status, redpile};
use rp_io::{Calls, Files, MemInputs, MemSink};
use rp_text::Raw;
use std::alloc::{AllocError, Global};
use std::process::Abort;
use std::test::Fail;

pub(crate) const EMPTY_BOX: &[u8] =
    b"\x0a\x00\x09Schematic\x03\x00\x07Version\x00\x00\x00\x02\x02\x00\x05Width\x00\x00\x02\x00\x06Height\x00\x00\x02\x00\x06Length\x00\x00\x0a\x00\x07Palette\x00\x07\x00\x09BlockData\x00\x00\x00\x00\x00";

/// What an empty box shows in one tick.
pub(crate) const EMPTY_VIEWS: &[u8] = b"outputs 0\n0 start\n1 tick\n";

pub(crate) const EMPTY_COUNTS: &[u8] = b"nodes 0 links 0 events 0\n";

pub(crate) const LEVER: &str = "minecraft:lever[face=wall,facing=west]";

pub(crate) const STONE: &str = "minecraft:stone";

pub(crate) const TORCH: &str = "minecraft:redstone_wall_torch[facing=east]";

pub(crate) const LAMP: &str = "minecraft:redstone_lamp";

/// The fields of a box of this width, height and length, but for the end of the root: a palette of
/// these texts, each with its number, and the bytes of the cells.
pub(crate) fn fields_of(
    alloc: Global,
    size: [u8; 3],
    palette: &[(&str, i32)],
    cells: &[u8],
) -> Result<Vec<u8>, Fail> {
    let mut file = Vec::from_slice(
        alloc,
        b"\x0a\x00\x09Schematic\x03\x00\x07Version\x00\x00\x00\x02",
    )?;
    file.extend_from_slice(b"\x02\x00\x05Width\x00")?;
    file.push(size[0])?;
    file.extend_from_slice(b"\x02\x00\x06Height\x00")?;
    file.push(size[1])?;
    file.extend_from_slice(b"\x02\x00\x06Length\x00")?;
    file.push(size[2])?;
    file.extend_from_slice(b"\x0a\x00\x07Palette")?;
    for (text, number) in palette {
        file.extend_from_slice(b"\x03\x00")?;
        file.push(text.len().min(255) as u8)?;
        file.extend_from_slice(text.as_bytes())?;
        file.extend_from_slice(&number.to_be_bytes())?;
    }
    file.extend_from_slice(b"\x00\x07\x00\x09BlockData\x00\x00\x00")?;
    file.push(cells.len().min(255) as u8)?;
    file.extend_from_slice(cells)?;
    Ok(file)
}

pub(crate) fn ended(fields: Vec<u8>) -> Result<Vec<u8>, Fail> {
    let mut file = fields;
    file.push(0)?;
    Ok(file)
}

/// The file of a row of cells.
pub(crate) fn box_of(
    alloc: Global,
    width: u8,
    palette: &[(&str, i32)],
    cells: &[u8],
) -> Result<Vec<u8>, Fail> {
    ended(fields_of(alloc, [width, 1, 1], palette, cells)?)
}

/// The fields of a row of blocks from west to east, each of another kind.
pub(crate) fn row_fields(alloc: Global, texts: &[&str]) -> Result<Vec<u8>, Fail> {
    let mut palette = Vec::new(alloc);
    let mut cells = Vec::new(alloc);
    for (number, text) in texts.iter().enumerate() {
        palette.push((*text, number.min(127) as i32))?;
        cells.push(number.min(127) as u8)?;
    }
    fields_of(alloc, [texts.len().min(255) as u8, 1, 1], &palette, &cells)
}

pub(crate) fn row_of(alloc: Global, texts: &[&str]) -> Result<Vec<u8>, Fail> {
    ended(row_fields(alloc, texts)?)
}

/// The file of an AND gate as a selection tool writes it: all properties are spelled out, and
/// there are fields that are passed over.
pub(crate) fn gate_file(alloc: Global) -> Result<Vec<u8>, Fail> {
    let palette = [
        ("minecraft:air", 0),
        ("minecraft:lever[face=wall,facing=north,powered=false]", 1),
        ("minecraft:white_concrete", 2),
        ("minecraft:redstone_wall_torch[facing=south,lit=false]", 3),
        ("minecraft:redstone_lamp[lit=false]", 4),
        ("minecraft:redstone_torch[lit=true]", 5),
        (
            "minecraft:redstone_wire[east=side,north=none,power=15,south=none,west=side]",
            6,
        ),
    ];
    let cells =
        b"\x01\x00\x01\x02\x02\x02\x00\x03\x00\x00\x04\x00\x00\x00\x00\x05\x06\x05\x00\x00\x00\x00\x00\x00";
    let mut file = fields_of(alloc, [3, 2, 4], &palette, cells)?;
    file.extend_from_slice(b"\x03\x00\x0bDataVersion\x00\x00\x0d\x01\x0a\x00\x08Metadata")?;
    for name in ["WEOffsetX", "WEOffsetY", "WEOffsetZ"] {
        file.extend_from_slice(b"\x03\x00\x09")?;
        file.extend_from_slice(name.as_bytes())?;
        file.extend_from_slice(b"\xff\xff\xff\xfe")?;
    }
    file.extend_from_slice(
        b"\x00\x0b\x00\x06Offset\x00\x00\x00\x03\x00\x00\x00\x01\x00\x00\x00\x02\x00\x00\x00\x03",
    )?;
    file.extend_from_slice(
        b"\x03\x00\x0aPaletteMax\x00\x00\x00\x07\x09\x00\x0dBlockEntities\x0a\x00\x00\x00\x00",
    )?;
    ended(file)
}

pub(crate) fn lever_and_lamp_file(alloc: Global) -> Result<Vec<u8>, Fail> {
    row_of(alloc, &[LEVER, STONE, LAMP])
}

/// What a call met and left.
#[derive(Drop)]
pub(crate) struct Outcome {
    pub(crate) status: Status,
    pub(crate) out: Vec<u8>,
    pub(crate) err: Vec<u8>,
    pub(crate) read: u64,
    pub(crate) written: u64,
    pub(crate) watched: u64,
}

/// The calls that fail, the size of the pieces that are taken, and the name that is watched.
#[derive(Clone, Copy)]
pub(crate) struct Faults<'a> {
    pub(crate) read: &'a [u64],
    pub(crate) out: &'a [u64],
    pub(crate) err: &'a [u64],
    pub(crate) chunk: usize,
    pub(crate) watch: &'a str,
}

pub(crate) const NONE: Faults<'static> = Faults {
    read: &[],
    out: &[],
    err: &[],
    chunk: 4096,
    watch: "",
};

pub(crate) fn raw(alloc: Global, bytes: &[u8]) -> Result<Raw, AllocError> {
    Ok(Raw {
        items: Vec::from_slice(alloc, bytes)?,
    })
}

pub(crate) fn calls(alloc: Global, numbers: &[u64]) -> Result<Calls, AllocError> {
    Ok(Calls {
        items: Vec::from_slice(alloc, numbers)?,
    })
}

pub(crate) fn call(
    alloc: Global,
    words: &[&str],
    files: &[(&str, &[u8])],
    faults: Faults,
) -> Result<Outcome, Fail> {
    let mut names = Vec::new(alloc);
    for word in words {
        names.push(String::from_str(alloc, word)?)?;
    }
    let mut items = Vec::new(alloc);
    for (name, bytes) in files {
        items.push((raw(alloc, name.as_bytes())?, raw(alloc, bytes)?))?;
    }
    let mut inputs = MemInputs::new(
        Files { items },
        calls(alloc, faults.read)?,
        raw(alloc, faults.watch.as_bytes())?,
    );
    let mut out = MemSink::new(
        alloc,
        1_048_576,
        faults.chunk.max(1),
        calls(alloc, faults.out)?,
    )?;
    let mut err = MemSink::new(
        alloc,
        1_048_576,
        faults.chunk.max(1),
        calls(alloc, faults.err)?,
    )?;
    let status = redpile(alloc, &names, &mut inputs, &mut out, &mut err);
    Ok(Outcome {
        status,
        out: Vec::from_slice(alloc, &out.bytes.items)?,
        err: Vec::from_slice(alloc, &err.bytes.items)?,
        read: inputs.calls,
        written: out.calls,
        watched: inputs.watched,
    })
}

/// What these words do with a build as the file `a` and a script as `b`.
pub(crate) fn by(
    alloc: Global,
    words: &[&str],
    build: &[u8],
    script: &[u8],
    faults: Faults,
) -> Result<Outcome, Fail> {
    call(alloc, words, &[("a", build), ("b", script)], faults)
}

pub(crate) const WORLD: &[&str] = &["world", "a", "b"];

pub(crate) const COMPILE: &[&str] = &["compile", "a", "b"];

pub(crate) const RUN: &[&str] = &["run", "a", "b"];

pub(crate) fn world(
    alloc: Global,
    build: &[u8],
    script: &[u8],
    faults: Faults,
) -> Result<Outcome, Fail> {
    by(alloc, WORLD, build, script, faults)
}

pub(crate) fn compile(
    alloc: Global,
    build: &[u8],
    script: &[u8],
    faults: Faults,
) -> Result<Outcome, Fail> {
    by(alloc, COMPILE, build, script, faults)
}

pub(crate) fn run(
    alloc: Global,
    build: &[u8],
    script: &[u8],
    faults: Faults,
) -> Result<Outcome, Fail> {
    by(alloc, RUN, build, script, faults)
}

/// Asserts that this whole text was written, and no line of a fault.
pub(crate) fn writes(rt: &impl Abort, outcome: &Outcome, text: &[u8]) {
    assert_eq!(rt; outcome.status, Status::Done);
    assert_eq!(rt; outcome.out.as_slice(), text);
    assert_eq!(rt; outcome.err.len(), 0);
}

pub(crate) fn joined(alloc: Global, pieces: &[&[u8]]) -> Result<Vec<u8>, Fail> {
    let mut text = Vec::new(alloc);
    for piece in pieces {
        text.extend_from_slice(piece)?;
    }
    Ok(text)
}

/// Asserts that `world` writes the header and the views, and `run` these counts too.
pub(crate) fn shows(
    rt: &impl Abort,
    alloc: Global,
    build: &[u8],
    script: &[u8],
    views: &[u8],
    counts: &[u8],
) -> Result<(), Fail> {
    let outcome = world(alloc, build, script, NONE)?;
    writes(rt, &outcome, &joined(alloc, &[views, b"end\n"])?);
    let outcome = run(alloc, build, script, NONE)?;
    writes(rt, &outcome, &joined(alloc, &[views, counts, b"end\n"])?);
    Ok(())
}

/// Two clicks of a lever before a lamp.
pub(crate) const TWO_CLICKS: &[u8] = b"use 0 0 0\ntick 1\nuse 0 0 0\ntick 2\n";

/// Whether nothing was written but the line of this refusal.
pub(crate) fn is_refused(outcome: &Outcome, status: Status, line: &[u8]) -> bool {
    outcome.status == status && outcome.out.is_empty() && outcome.err.as_slice() == line
}

/// Whether each command with a script of one tick refuses this file by this status and line.
pub(crate) fn refuses(
    alloc: Global,
    build: &[u8],
    status: Status,
    line: &[u8],
) -> Result<bool, Fail> {
    let mut refused = true;
    for words in [RUN, WORLD, COMPILE] {
        let outcome = by(alloc, words, build, b"tick 1", NONE)?;
        refused &= is_refused(&outcome, status, line);
    }
    Ok(refused)
}

pub(crate) fn is_bad(alloc: Global, build: &[u8], line: &[u8]) -> Result<bool, Fail> {
    refuses(alloc, build, Status::BadBuild, line)
}

pub(crate) fn is_accepted(alloc: Global, build: &[u8]) -> Result<bool, Fail> {
    let mut accepted = true;
    for words in [RUN, WORLD, COMPILE] {
        accepted &= by(alloc, words, build, b"tick 1", NONE)?.status == Status::Done;
    }
    Ok(accepted)
}

/// The file of a lever, a stone and a lamp, whose palette has a block that isn't known.
pub(crate) fn unknown_block_file(alloc: Global) -> Result<Vec<u8>, Fail> {
    let palette = [
        (LEVER, 0),
        (STONE, 1),
        (LAMP, 2),
        ("minecraft:observer[facing=up]", 3),
    ];
    box_of(alloc, 3, &palette, &[0, 1, 2])
}

/// The file of a lever and a lamp with one pending tick.
pub(crate) fn pending(alloc: Global, tick: [i32; 5]) -> Result<Vec<u8>, Fail> {
    let mut file = row_fields(alloc, &[LEVER, STONE, LAMP])?;
    file.extend_from_slice(b"\x0a\x00\x08Metadata\x0b\x00\x0eRedpilePending\x00\x00\x00\x05")?;
    for number in tick {
        file.extend_from_slice(&number.to_be_bytes())?;
    }
    ended(ended(file)?)
}
