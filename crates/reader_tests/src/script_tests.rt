//! Scripts, and what is refused of them.

use block_table::parse_state;
use build::{Build, Marks};
use script::{
    Act, Click, Pos, Script, ScriptKind, ScriptRefusal, Step, read_script, read_script_on,
};
use std::alloc::Global;
use std::process::Abort;
use std::test::Fail;

fn pos(x: i32, y: i32, z: i32) -> Pos {
    Pos { x, y, z }
}

// A row of blocks from west to east.
fn row(rt: &impl Abort, alloc: Global, states: &[&str]) -> Result<Build, Fail> {
    assert!(rt; states.len() <= 16);
    let mut build = Build::new(alloc, states.len() as u16, 1, 1, 0)?;
    for (x, state) in states.iter().enumerate() {
        let place = pos(x as i32, 0, 0);
        let block = parse_state(state.as_bytes()).expect(rt, "a block of the table");
        assert!(rt; build.contains(place));
        build.set(place, block);
    }
    Ok(build)
}

fn lever_and_lamp(rt: &impl Abort, alloc: Global) -> Result<Build, Fail> {
    row(
        rt,
        alloc,
        &["lever[face=wall,facing=west]", "stone", "redstone_lamp"],
    )
}

// All that can be clicked, from x 0 to 3, and two wires and a lamp after it.
fn board(rt: &impl Abort, alloc: Global) -> Result<Build, Fail> {
    row(
        rt,
        alloc,
        &[
            "lever[face=wall,facing=west]",
            "stone_button[face=wall,facing=west]",
            "stone_pressure_plate",
            "light_weighted_pressure_plate",
            "redstone_wire",
            "redstone_wire",
            "redstone_lamp",
        ],
    )
}

fn refusal_of(rt: &impl Abort, alloc: Global, text: &[u8], build: &Build) -> Option<ScriptRefusal> {
    assert!(rt; text.len() <= 1_048_576);
    read_script(alloc, text, build).err()
}

fn line(line: u32, kind: ScriptKind) -> Option<ScriptRefusal> {
    Some(ScriptRefusal::Line { line, kind })
}

// The rows `bad_scripts`, and those of hostile files that are about scripts.
#[test]
fn bad_scripts(rt: HostRuntime) -> Result<(), Fail> {
    use ScriptKind::*;
    let build = lever_and_lamp(&rt, rt.alloc())?;
    let rows: [(&[u8], Option<ScriptRefusal>); 9] = [
        (b"use 0 0 0\ntick 1\nuse 0 0 0\ntick 2\n", None),
        (b"use 0 0 0\ntick 1\nuse 1 0 0\n", line(3, NotClickable)),
        (b"tick 100001\n", line(1, TooManyTicks)),
        (b"mark 1 0 0\n", line(1, NotWire)),
        (b"tick 01\n", line(1, Number)),
        (b"jump\n", line(1, Word)),
        (b"use 4294967295 0 0\n", line(1, NotClickable)),
        (b"use 4294967296 0 0\n", line(1, Number)),
        (b"tick 1\r\r\n", line(1, Number)),
    ];
    for (text, want) in rows {
        assert_eq!(rt; refusal_of(&rt, rt.alloc(), text, &build), want, "{text:?}");
    }
    Ok(())
}

#[test]
fn longest_comment(rt: HostRuntime) -> Result<(), Fail> {
    let build = lever_and_lamp(&rt, rt.alloc())?;
    let text = vec![in rt.alloc(); b'#'; 1_048_576]?;
    assert_eq!(rt; refusal_of(&rt, rt.alloc(), &text, &build), None);
    Ok(())
}

// The file of a build in place of a script: it begins with an LF.
#[test]
fn one_name_twice(rt: HostRuntime) -> Result<(), Fail> {
    let build = row(&rt, rt.alloc(), &[])?;
    let text = b"\n\x00\x09Schematic\x03\x00\x07Version\x00\x00\x00\x02";
    assert_eq!(rt;
        refusal_of(&rt, rt.alloc(), text, &build),
        line(2, ScriptKind::Word)
    );
    Ok(())
}

#[test]
fn weighted_plate(rt: HostRuntime) -> Result<(), Fail> {
    use ScriptKind::*;
    let build = row(&rt, rt.alloc(), &["light_weighted_pressure_plate"])?;
    let rows: [(&[u8], Option<ScriptRefusal>); 3] = [
        (b"press 0 0 0 7\nleave 0 0 0\n", None),
        (b"press 0 0 0\n", line(1, NotClickable)),
        (b"press 0 0 0 16\n", line(1, Number)),
    ];
    for (text, want) in rows {
        assert_eq!(rt; refusal_of(&rt, rt.alloc(), text, &build), want, "{text:?}");
    }
    Ok(())
}

// One line at a time on the board.
#[test]
fn lines(rt: HostRuntime) -> Result<(), Fail> {
    use ScriptKind::*;
    let build = board(&rt, rt.alloc())?;
    let rows: [(&[u8], Option<ScriptRefusal>); 74] = [
        (b"", None),
        (b" \t ", None),
        (b"#", None),
        (b" #use 9 9 9", None),
        (b"use 0 0 0", None),
        (b"use 1 0 0", None),
        (b"press 2 0 0", None),
        (b"leave 2 0 0", None),
        (b"leave 3 0 0", None),
        (b"press 3 0 0 1", None),
        (b"press 3 0 0 15", None),
        (b"mark 4 0 0", None),
        (b"mark 5 0 0", None),
        (b"tick 0", None),
        (b"tick 100000", None),
        (b"\ttick  1 ", None),
        (b"tick 1\r\n", None),
        // another first word, or another number of words
        (b"Use 0 0 0", line(1, Word)),
        (b"used 0 0 0", line(1, Word)),
        (b"us 0 0 0", line(1, Word)),
        (b"0 0 0", line(1, Word)),
        (b"use", line(1, Word)),
        (b"use 0", line(1, Word)),
        (b"use 0 0", line(1, Word)),
        (b"use 0 0 0 0", line(1, Word)),
        (b"use 0 0 0 #", line(1, Word)),
        (b"press 2 0", line(1, Word)),
        (b"press 3 0 0 1 1", line(1, Word)),
        (b"leave 3 0 0 1", line(1, Word)),
        (b"mark 4 0", line(1, Word)),
        (b"mark 4 0 0 0", line(1, Word)),
        (b"tick", line(1, Word)),
        (b"tick 1 1", line(1, Word)),
        (b"tick 1 1 1", line(1, Word)),
        (b"tick 1\rtick 1", line(1, Word)),
        (b"use x y", line(1, Word)),
        (b"jump x y z", line(1, Word)),
        // not a number
        (b"use -1 0 0", line(1, Number)),
        (b"use 0 +0 0", line(1, Number)),
        (b"use 0 0 00", line(1, Number)),
        (b"use 9 9 x", line(1, Number)),
        (b"mark 4 0 0x", line(1, Number)),
        (b"mark 4294967296 0 0", line(1, Number)),
        (b"leave 2 0 4294967296", line(1, Number)),
        (b"press 3 0 0 0", line(1, Number)),
        (b"press 3 0 0 16", line(1, Number)),
        (b"press 3 0 0 256", line(1, Number)),
        (b"press 3 0 0 01", line(1, Number)),
        (b"press 9 0 0 16", line(1, Number)),
        (b"press x 0 0 7", line(1, Number)),
        (b"tick 4294967296", line(1, Number)),
        (b"tick 1\r", line(1, Number)),
        (b"tick x", line(1, Number)),
        // nothing there takes the click
        (b"use 2 0 0", line(1, NotClickable)),
        (b"use 3 0 0", line(1, NotClickable)),
        (b"use 4 0 0", line(1, NotClickable)),
        (b"use 6 0 0", line(1, NotClickable)),
        (b"use 0 1 0", line(1, NotClickable)),
        (b"use 0 2147483648 0", line(1, NotClickable)),
        (b"press 0 0 0", line(1, NotClickable)),
        (b"press 1 0 0", line(1, NotClickable)),
        (b"press 3 0 0", line(1, NotClickable)),
        (b"press 2 0 0 7", line(1, NotClickable)),
        (b"press 2147483648 0 0 7", line(1, NotClickable)),
        (b"leave 0 0 0", line(1, NotClickable)),
        (b"leave 0 0 2147483648", line(1, NotClickable)),
        // no wire there
        (b"mark 0 0 0", line(1, NotWire)),
        (b"mark 6 0 0", line(1, NotWire)),
        (b"mark 7 0 0", line(1, NotWire)),
        (b"mark 2147483648 0 0", line(1, NotWire)),
        (b"mark 4 0 4294967295", line(1, NotWire)),
        // too many ticks
        (b"tick 100001", line(1, TooManyTicks)),
        (b"tick 4294967295", line(1, TooManyTicks)),
        (b"tick 99999\ntick 2", line(2, TooManyTicks)),
    ];
    for (text, want) in rows {
        assert_eq!(rt; refusal_of(&rt, rt.alloc(), text, &build), want, "{text:?}");
    }
    Ok(())
}

// The first bad line counts, and its first kind.
#[test]
fn first_bad_line(rt: HostRuntime) -> Result<(), Fail> {
    use ScriptKind::*;
    let build = board(&rt, rt.alloc())?;
    let rows: [(&[u8], Option<ScriptRefusal>); 6] = [
        (b"\n\n# bad\n\nuse 9 0 0\njump\n", line(5, NotClickable)),
        (b"tick 1\r\n\r\nmark 0 0 0\r\nuse 9 0 0", line(3, NotWire)),
        (b"tick 60000\nuse 0 0 0\ntick 40000\n", None),
        (
            b"tick 60000\nuse 0 0 0\ntick 40001\njump\n",
            line(3, TooManyTicks),
        ),
        (b"tick 100000\ntick 0\ntick 1\n", line(3, TooManyTicks)),
        (b"tick 100000\njump\ntick 1\n", line(2, Word)),
    ];
    for (text, want) in rows {
        assert_eq!(rt; refusal_of(&rt, rt.alloc(), text, &build), want, "{text:?}");
    }
    Ok(())
}

#[test]
fn acts_and_marks(rt: HostRuntime) -> Result<(), Fail> {
    let build = board(&rt, rt.alloc())?;
    let text =
        b"use 0 0 0\nmark 5 0 0\npress 2 0 0\n# a comment\npress 3 0 0 7\ntick 2\nmark 4 0 0\nleave 3 0 0\ntick 0\nmark 5 0 0\n";
    let script = read_script_on(rt.alloc(), text, &build)?;
    let wants = [
        Act::Use { pos: pos(0, 0, 0) },
        Act::Press { pos: pos(2, 0, 0) },
        Act::Weigh {
            pos: pos(3, 0, 0),
            weight: 7,
        },
        Act::Ticks { count: 2 },
        Act::Leave { pos: pos(3, 0, 0) },
        Act::Ticks { count: 0 },
    ];
    assert_eq!(rt; script.len(), wants.len());
    for (index, want) in wants.iter().enumerate() {
        assert!(rt; index < script.len());
        assert_eq!(rt; script.act(index), *want);
    }
    let marks: &Marks = script.marks();
    for x in 0..7 {
        assert_eq!(rt; marks.contains(pos(x, 0, 0)), x == 4 || x == 5, "{x}");
    }
    let click = |x: i32, click: Click| Step::Click {
        pos: pos(x, 0, 0),
        click,
    };
    let steps = script.steps().collect::<Vec<Step>>(rt.alloc())?;
    let wants = [
        click(0, Click::Use),
        click(2, Click::Press),
        click(3, Click::Weigh { weight: 7 }),
        Step::Tick,
        Step::Tick,
        click(3, Click::Leave),
    ];
    assert_eq!(rt; steps.as_slice(), wants.as_slice());
    Ok(())
}

#[test]
fn script_by_hand(rt: HostRuntime) -> Result<(), Fail> {
    let mut script = Script::new(rt.alloc());
    assert!(rt; script.is_empty());
    script.push(Act::Use { pos: pos(1, 2, 3) })?;
    script.push(Act::Ticks { count: 100_000 })?;
    assert!(rt; !script.is_empty());
    assert_eq!(rt; script.len(), 2);
    assert_eq!(rt; script.act(0), Act::Use { pos: pos(1, 2, 3) });
    assert_eq!(rt; script.act(1), Act::Ticks { count: 100_000 });
    Ok(())
}
