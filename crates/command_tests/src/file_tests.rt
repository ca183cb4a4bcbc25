//! Files of builds: what is refused by which line, and what is read.

use crate::support::{
    EMPTY_BOX, EMPTY_COUNTS, EMPTY_VIEWS, NONE, STONE, box_of, ended, is_accepted, is_bad,
    is_refused, joined, lever_and_lamp_file, pending, refuses, row_fields, run, shows,
    unknown_block_file,
};
use redpile_top::Status;
use rp_text::push_u64;
use std::alloc::Global;
use std::test::Fail;

const EMPTY_BOX_LAYOUT_3: &[u8] =
    b"\x0a\x00\x00\x0a\x00\x09Schematic\x03\x00\x07Version\x00\x00\x00\x03\x02\x00\x05Width\x00\x00\x02\x00\x06Height\x00\x00\x02\x00\x06Length\x00\x00\x0a\x00\x06Blocks\x0a\x00\x07Palette\x00\x07\x00\x04Data\x00\x00\x00\x00\x00\x00\x00";

/// The file of a barrel with so many stacks of so many stones, a comparator and a wire.
fn barrel_file(alloc: Global, stacks: u8, count: u8) -> Result<Vec<u8>, Fail> {
    let row = ["barrel", "comparator[facing=west]", "redstone_wire"];
    let mut file = row_fields(alloc, &row)?;
    file.extend_from_slice(
        b"\x09\x00\x0dBlockEntities\x0a\x00\x00\x00\x01\x0b\x00\x03Pos\x00\x00\x00\x03\x00\x00\x00\x00\x00\x00\x00\x00\x00\x00\x00\x00\x09\x00\x05Items\x0a\x00\x00\x00",
    )?;
    file.push(stacks)?;
    for _ in 0..stacks {
        file.extend_from_slice(b"\x08\x00\x02id\x00\x0fminecraft:stone\x01\x00\x05Count")?;
        file.extend_from_slice(&[count, 0])?;
    }
    ended(ended(file)?)
}

#[test]
fn compressed_file(rt: HostRuntime) -> Result<(), Fail> {
    let alloc = rt.alloc();
    let line = b"redpile: build: compressed\n";
    assert!(rt; is_bad(alloc, b"\x1f\x8b\x08", line)?);
    Ok(())
}

#[test]
fn trailing_byte(rt: HostRuntime) -> Result<(), Fail> {
    let alloc = rt.alloc();
    let file = ended(Vec::from_slice(alloc, EMPTY_BOX)?)?;
    assert!(rt; is_bad(alloc, &file, b"redpile: build: nbt trailing at 86\n")?);
    Ok(())
}

fn truncated_line(alloc: Global, place: usize) -> Result<Vec<u8>, Fail> {
    let mut line = Vec::from_slice(alloc, b"redpile: build: nbt truncated at ")?;
    push_u64(&mut line, place as u64)?;
    line.push(b'\n')?;
    Ok(line)
}

/// The row `cut_file`, and each proper prefix of the file of a row of blocks.
#[test]
fn cut_files(rt: HostRuntime) -> Result<(), Fail> {
    let alloc = rt.alloc();
    let line = b"redpile: build: nbt truncated at 85\n";
    assert!(rt; is_bad(alloc, &EMPTY_BOX[..85], line)?);
    let file = lever_and_lamp_file(alloc)?;
    for length in 0..file.len() {
        let line = truncated_line(alloc, length)?;
        assert!(rt; is_bad(alloc, &file[..length], &line)?, "{length}");
    }
    Ok(())
}

#[test]
fn unknown_block(rt: HostRuntime) -> Result<(), Fail> {
    let alloc = rt.alloc();
    let file = unknown_block_file(alloc)?;
    let line = b"redpile: block: minecraft:observer[facing=up]\n";
    assert!(rt; refuses(alloc, &file, Status::BadBlock, line)?);
    Ok(())
}

/// Of a box of two cells, whose palette is air alone.
#[test]
fn block_data(rt: HostRuntime) -> Result<(), Fail> {
    let alloc = rt.alloc();
    let rows: [(&[u8], &[u8]); 5] = [
        (b"\x00", b"redpile: build: data at 1\n"),
        (b"\x00\x80", b"redpile: build: data at 1\n"),
        (b"\x00\x05", b"redpile: build: data at 1\n"),
        (b"\x00\x00\x00", b"redpile: build: data at 2\n"),
        (b"\x80\x80\x80\x80\x80\x00", b"redpile: build: data at 0\n"),
    ];
    for (cells, line) in rows {
        let file = box_of(alloc, 2, &[("minecraft:air", 0)], cells)?;
        assert!(rt; is_bad(alloc, &file, line)?, "{cells:?}");
    }
    let file = box_of(alloc, 2, &[("minecraft:air", 0)], b"\x80\x00\x00")?;
    assert!(rt; is_accepted(alloc, &file)?);
    Ok(())
}

/// A root in a root, and so on.
fn nested(alloc: Global, depth: usize) -> Result<Vec<u8>, Fail> {
    let mut file = Vec::new(alloc);
    for _ in 0..depth {
        file.extend_from_slice(b"\x0a\x00\x00")?;
    }
    for _ in 0..depth {
        file.push(0)?;
    }
    Ok(file)
}

/// The rows `hostile_nbt`, and those of hostile files that NBT itself refuses.
#[test]
fn hostile_nbt(rt: HostRuntime) -> Result<(), Fail> {
    let alloc = rt.alloc();
    let deep = nested(alloc, 513)?;
    assert!(rt; is_bad(alloc, &deep, b"redpile: build: nbt too deep at 1536\n")?);
    let deepest = nested(alloc, 512)?;
    assert!(rt; is_bad(alloc, &deepest, b"redpile: build: missing Version\n")?);
    let rows: [(&[u8], &[u8]); 8] = [
        (
            b"\x0a\x00\x00\x07\x00\x01a\xff\xff\xff\xff\x00",
            b"redpile: build: nbt bad length at 7\n",
        ),
        (b"\x0a\x00\x00\x0d", b"redpile: build: nbt bad type at 3\n"),
        (b"\x01", b"redpile: build: nbt root not compound at 0\n"),
        (
            b"\x0a\x00\x00\x07\x00\x01a\x7f\xff\xff\xff\x00",
            b"redpile: build: nbt truncated at 12\n",
        ),
        (
            b"\x0a\x00\x00\x09\x00\x01a\x0d\x00\x00\x00\x01",
            b"redpile: build: nbt bad type at 7\n",
        ),
        (
            b"\x0a\x00\x00\x09\x00\x01a\x00\x00\x00\x00\x01\x00",
            b"redpile: build: nbt bad length at 8\n",
        ),
        (
            b"\x0a\x00\x00\x09\x00\x01a\x00\xff\xff\xff\xff\x00",
            b"redpile: build: missing Version\n",
        ),
        (
            b"\x0a\x00\x00\x0c\x00\x01a\xff\xff\xff\xff",
            b"redpile: build: nbt bad length at 7\n",
        ),
    ];
    for (file, line) in rows {
        assert!(rt; is_bad(alloc, file, line)?, "{file:?}");
    }
    Ok(())
}

/// Those of hostile files that are about the palette.
#[test]
fn hostile_palettes(rt: HostRuntime) -> Result<(), Fail> {
    let alloc = rt.alloc();
    let clash = box_of(alloc, 1, &[("air", 0), (STONE, 0)], &[0])?;
    assert!(rt; is_bad(alloc, &clash, b"redpile: build: palette clash\n")?);
    let twice = [("air", 0), ("air", 1)];
    let first = box_of(alloc, 1, &twice, &[0])?;
    assert!(rt; is_bad(alloc, &first, b"redpile: build: data at 0\n")?);
    assert!(rt; is_accepted(alloc, &box_of(alloc, 1, &twice, &[1])?)?);
    let below = box_of(alloc, 1, &[("air", -1)], b"\xff\xff\xff\xff\x0f")?;
    assert!(rt; is_bad(alloc, &below, b"redpile: build: data at 0\n")?);
    Ok(())
}

#[test]
fn empty_box_layout_3(rt: HostRuntime) -> Result<(), Fail> {
    assert_eq!(rt; EMPTY_BOX_LAYOUT_3.len(), 95);
    shows(
        &rt,
        rt.alloc(),
        EMPTY_BOX_LAYOUT_3,
        b"tick 1",
        EMPTY_VIEWS,
        EMPTY_COUNTS,
    )
}

/// Version 3 in layout 2, and version 2 in layout 3.
#[test]
fn layouts_and_versions(rt: HostRuntime) -> Result<(), Fail> {
    let alloc = rt.alloc();
    let mut older = Vec::from_slice(alloc, &EMPTY_BOX_LAYOUT_3[..28])?;
    older.push(2)?;
    older.extend_from_slice(&EMPTY_BOX_LAYOUT_3[29..])?;
    assert!(rt; is_bad(alloc, &older, b"redpile: build: version\n")?);
    let mut bare = Vec::from_slice(alloc, &EMPTY_BOX_LAYOUT_3[..81])?;
    bare.extend_from_slice(b"\x00\x00\x00")?;
    assert!(rt; is_bad(alloc, &bare, b"redpile: build: missing Data\n")?);
    let mut newer = Vec::from_slice(alloc, &EMPTY_BOX[..25])?;
    newer.push(3)?;
    newer.extend_from_slice(&EMPTY_BOX[26..69])?;
    newer.push(0)?;
    assert!(rt; is_bad(alloc, &newer, b"redpile: build: missing BlockData\n")?);
    Ok(())
}

#[test]
fn schematic_beside_version(rt: HostRuntime) -> Result<(), Fail> {
    let alloc = rt.alloc();
    let tag = b"\x03\x00\x09Schematic\x00\x00\x00\x02";
    let mut instead = Vec::from_slice(alloc, &EMPTY_BOX[..12])?;
    instead.extend_from_slice(tag)?;
    instead.extend_from_slice(&EMPTY_BOX[26..])?;
    assert!(rt; is_bad(alloc, &instead, b"redpile: build: wrong kind Schematic\n")?);
    let mut beside = Vec::from_slice(alloc, &EMPTY_BOX[..12])?;
    beside.extend_from_slice(tag)?;
    beside.extend_from_slice(&EMPTY_BOX[12..])?;
    shows(&rt, alloc, &beside, b"tick 1", EMPTY_VIEWS, EMPTY_COUNTS)
}

/// The strengths of one stone, of 27 full stacks and of nothing.
#[test]
fn containers_by_their_items(rt: HostRuntime) -> Result<(), Fail> {
    let alloc = rt.alloc();
    let rows: [(u8, u8, &[u8], &[u8]); 3] = [
        (1, 1, b"1\n", b"nodes 2 links 1 events 1\n"),
        (27, 64, b"15\n", b"nodes 2 links 1 events 1\n"),
        (0, 0, b"0\n", b"nodes 1 links 0 events 0\n"),
    ];
    for (stacks, count, power, counts) in rows {
        let build = barrel_file(alloc, stacks, count)?;
        let views = joined(
            alloc,
            &[b"outputs 1\n2 0 0 wire\n0 start 0\n1 tick ", power],
        )?;
        shows(&rt, alloc, &build, b"mark 2 0 0\ntick 1", &views, counts)?;
    }
    Ok(())
}

#[test]
fn signal_out_of_range(rt: HostRuntime) -> Result<(), Fail> {
    let alloc = rt.alloc();
    let mut file = row_fields(alloc, &["comparator"])?;
    file.extend_from_slice(
        b"\x09\x00\x0dBlockEntities\x0a\x00\x00\x00\x01\x0b\x00\x03Pos\x00\x00\x00\x03\x00\x00\x00\x00\x00\x00\x00\x00\x00\x00\x00\x00\x03\x00\x0cOutputSignal\x00\x00\x00\x10\x00",
    )?;
    let line = b"redpile: build: signal at 0 0 0\n";
    assert!(rt; is_bad(alloc, &ended(file)?, line)?);
    Ok(())
}

/// A tick of the lamp is played: it finds the lamp without power.
#[test]
fn pending_ticks_in_a_file(rt: HostRuntime) -> Result<(), Fail> {
    let alloc = rt.alloc();
    let line = b"redpile: build: pending at 0\n";
    for tick in [[0, 0, 0, 1, 3], [2, 0, 0, 16, 3]] {
        assert!(rt; is_bad(alloc, &pending(alloc, tick)?, line)?);
    }
    shows(
        &rt,
        alloc,
        &pending(alloc, [2, 0, 0, 1, 3])?,
        b"tick 1",
        b"outputs 1\n2 0 0 lamp\n0 start 0\n1 tick 0\n",
        b"nodes 2 links 1 events 1\n",
    )
}

/// A file one byte over the limit.
#[test]
fn longest_build(rt: HostRuntime) -> Result<(), Fail> {
    let alloc = rt.alloc();
    let file = vec![in alloc; 10; 67_108_865]?;
    let outcome = run(alloc, &file, b"tick 1", NONE)?;
    let line = b"redpile: build: too long\n";
    assert!(rt; is_refused(&outcome, Status::BadBuild, line));
    Ok(())
}
