//! The line of each fault.

ghost use Rattle.std.specs.Prelude.{◌≡◌};
ghost use Rattle.report.specs.FaultLine.{block_name, name_refused};

use block_table::Block;
use build::{Build, Pos};
use nbt::NbtKind;
use report::{Fault, GraphKind, GraphRefusal, LineBuf, OrderKind, push_fault};
use rp_text::{NoMemory, Raw};
use schematic::{BuildRefusal, FieldName};
use script::{ScriptKind, ScriptRefusal};
use std::alloc::Global;
use std::process::Abort;
use std::test::Fail;

// The name of the block that a fault is about.
fn block_name(fault: &Fault) -> &[u8]
    ensures { result.now ≡ block_name fault.now }
{
    match fault {
        Fault::Build { refusal } => name_refused(refusal),
        _ => &[],
    }
}

fn name_refused(refusal: &BuildRefusal) -> &[u8]
    ensures { result.now ≡ name_refused refusal.now }
{
    match refusal {
        BuildRefusal::Block { name } => &name.items,
        _ => &[],
    }
}

fn build(refusal: BuildRefusal) -> Fault {
    Fault::Build { refusal }
}

fn nbt(kind: NbtKind, place: u64) -> Fault {
    build(BuildRefusal::Nbt { place, kind })
}

fn missing(field: FieldName) -> Fault {
    build(BuildRefusal::Missing { field })
}

fn wrong_kind(field: FieldName) -> Fault {
    build(BuildRefusal::WrongKind { field })
}

fn signal(x: i32, y: i32, z: i32) -> Fault {
    build(BuildRefusal::Signal {
        pos: Pos { x, y, z },
    })
}

fn script(line: u32, kind: ScriptKind) -> Fault {
    Fault::Script {
        refusal: ScriptRefusal::Line { line, kind },
    }
}

fn order(line: u32, tick: u32, kind: OrderKind) -> Fault {
    Fault::Order { line, tick, kind }
}

fn graph(refusal: GraphRefusal) -> Fault {
    Fault::Graph { refusal }
}

fn node(index: u32, kind: GraphKind) -> Fault {
    graph(GraphRefusal::Node { index, kind })
}

fn link(index: u32, kind: GraphKind) -> Fault {
    graph(GraphRefusal::Link { index, kind })
}

fn assert_line(rt: &impl Abort, alloc: Global, fault: &Fault, want: &[u8]) -> Result<(), Fail> {
    assert!(rt; block_name(fault).is_empty());
    let mut line = LineBuf::new(alloc, 128)?;
    push_fault(&mut line, fault);
    assert_eq!(rt; line.bytes(), want);
    Ok(())
}

#[test]
fn fault_lines(rt: HostRuntime) -> Result<(), Fail> {
    let rows: [(Fault, &[u8]); 8] = [
        (Fault::Usage, b"redpile: usage\n"),
        (Fault::Read, b"redpile: read fault\n"),
        (Fault::Write, b"redpile: write fault\n"),
        (Fault::Memory, b"redpile: out of memory\n"),
        (Fault::BuildTooLong, b"redpile: build: too long\n"),
        (Fault::ScriptTooLong, b"redpile: script: line 0 too long\n"),
        (Fault::OrderTooLong, b"redpile: order: line 0 too long\n"),
        (Fault::GraphTooLong, b"redpile: graph: too long\n"),
    ];
    for (fault, want) in rows {
        assert_line(&rt, rt.alloc(), &fault, want)?;
    }
    Ok(())
}

#[test]
fn lines_of_a_build(rt: HostRuntime) -> Result<(), Fail> {
    let rows: [(Fault, &[u8]); 17] = [
        (
            build(BuildRefusal::Compressed),
            b"redpile: build: compressed\n",
        ),
        (
            nbt(NbtKind::Truncated, 85),
            b"redpile: build: nbt truncated at 85\n",
        ),
        (
            nbt(NbtKind::BadType, 3),
            b"redpile: build: nbt bad type at 3\n",
        ),
        (
            nbt(NbtKind::BadLength, 7),
            b"redpile: build: nbt bad length at 7\n",
        ),
        (
            nbt(NbtKind::TooDeep, 1536),
            b"redpile: build: nbt too deep at 1536\n",
        ),
        (
            nbt(NbtKind::Trailing, u64::MAX),
            b"redpile: build: nbt trailing at 18446744073709551615\n",
        ),
        (
            nbt(NbtKind::RootNotCompound, 0),
            b"redpile: build: nbt root not compound at 0\n",
        ),
        (build(BuildRefusal::Version), b"redpile: build: version\n"),
        (build(BuildRefusal::Volume), b"redpile: build: volume\n"),
        (
            build(BuildRefusal::PaletteClash),
            b"redpile: build: palette clash\n",
        ),
        (
            build(BuildRefusal::Data { place: 1 }),
            b"redpile: build: data at 1\n",
        ),
        (
            build(BuildRefusal::Data { place: u64::MAX }),
            b"redpile: build: data at 18446744073709551615\n",
        ),
        (signal(0, 1, 2), b"redpile: build: signal at 0 1 2\n"),
        (
            signal(i32::MIN, -1, i32::MAX),
            b"redpile: build: signal at -2147483648 -1 2147483647\n",
        ),
        (
            build(BuildRefusal::Pending { group: 0 }),
            b"redpile: build: pending at 0\n",
        ),
        (
            build(BuildRefusal::Pending { group: u32::MAX }),
            b"redpile: build: pending at 4294967295\n",
        ),
        (build(BuildRefusal::NoMemory), b"redpile: out of memory\n"),
    ];
    for (fault, want) in rows {
        assert_line(&rt, rt.alloc(), &fault, want)?;
    }
    Ok(())
}

#[test]
fn lines_of_a_field(rt: HostRuntime) -> Result<(), Fail> {
    let rows: [(Fault, &[u8]); 14] = [
        (
            missing(FieldName::Schematic),
            b"redpile: build: missing Schematic\n",
        ),
        (
            missing(FieldName::Version),
            b"redpile: build: missing Version\n",
        ),
        (
            missing(FieldName::Width),
            b"redpile: build: missing Width\n",
        ),
        (
            missing(FieldName::Height),
            b"redpile: build: missing Height\n",
        ),
        (
            missing(FieldName::Length),
            b"redpile: build: missing Length\n",
        ),
        (
            missing(FieldName::Blocks),
            b"redpile: build: missing Blocks\n",
        ),
        (
            missing(FieldName::Palette),
            b"redpile: build: missing Palette\n",
        ),
        (
            missing(FieldName::BlockData),
            b"redpile: build: missing BlockData\n",
        ),
        (missing(FieldName::Data), b"redpile: build: missing Data\n"),
        (
            missing(FieldName::Metadata),
            b"redpile: build: missing Metadata\n",
        ),
        (
            missing(FieldName::RedpilePending),
            b"redpile: build: missing RedpilePending\n",
        ),
        (
            wrong_kind(FieldName::Schematic),
            b"redpile: build: wrong kind Schematic\n",
        ),
        (
            wrong_kind(FieldName::Data),
            b"redpile: build: wrong kind Data\n",
        ),
        (
            wrong_kind(FieldName::RedpilePending),
            b"redpile: build: wrong kind RedpilePending\n",
        ),
    ];
    for (fault, want) in rows {
        assert_line(&rt, rt.alloc(), &fault, want)?;
    }
    Ok(())
}

#[test]
fn lines_of_a_script(rt: HostRuntime) -> Result<(), Fail> {
    let rows: [(Fault, &[u8]); 6] = [
        (
            script(2, ScriptKind::Word),
            b"redpile: script: line 2 word\n",
        ),
        (
            script(1, ScriptKind::Number),
            b"redpile: script: line 1 number\n",
        ),
        (
            script(3, ScriptKind::NotClickable),
            b"redpile: script: line 3 not clickable\n",
        ),
        (
            script(1, ScriptKind::NotWire),
            b"redpile: script: line 1 not wire\n",
        ),
        (
            script(u32::MAX, ScriptKind::TooManyTicks),
            b"redpile: script: line 4294967295 too many ticks\n",
        ),
        (
            Fault::Script {
                refusal: ScriptRefusal::NoMemory,
            },
            b"redpile: out of memory\n",
        ),
    ];
    for (fault, want) in rows {
        assert_line(&rt, rt.alloc(), &fault, want)?;
    }
    Ok(())
}

#[test]
fn lines_of_an_order(rt: HostRuntime) -> Result<(), Fail> {
    let rows: [(Fault, &[u8]); 8] = [
        (
            order(1, 0, OrderKind::Short),
            b"redpile: order: line 1 tick 0 short\n",
        ),
        (
            order(2, 0, OrderKind::Differs),
            b"redpile: order: line 2 tick 0 differs\n",
        ),
        (
            order(3, 1, OrderKind::Form),
            b"redpile: order: line 3 tick 1 form\n",
        ),
        (
            order(4, 1, OrderKind::NotDue),
            b"redpile: order: line 4 tick 1 not due\n",
        ),
        (
            order(5, 2, OrderKind::Twice),
            b"redpile: order: line 5 tick 2 twice\n",
        ),
        (
            order(6, 2, OrderKind::Priority),
            b"redpile: order: line 6 tick 2 priority\n",
        ),
        (
            order(7, 3, OrderKind::Left),
            b"redpile: order: line 7 tick 3 left\n",
        ),
        (
            order(u32::MAX, u32::MAX, OrderKind::Trailing),
            b"redpile: order: line 4294967295 tick 4294967295 trailing\n",
        ),
    ];
    for (fault, want) in rows {
        assert_line(&rt, rt.alloc(), &fault, want)?;
    }
    Ok(())
}

#[test]
fn lines_of_a_graph(rt: HostRuntime) -> Result<(), Fail> {
    let rows: [(Fault, &[u8]); 9] = [
        (graph(GraphRefusal::Json), b"redpile: graph: json\n"),
        (graph(GraphRefusal::Whole), b"redpile: graph: whole\n"),
        (node(0, GraphKind::Field), b"redpile: graph: node 0 field\n"),
        (node(1, GraphKind::Range), b"redpile: graph: node 1 range\n"),
        (
            node(u32::MAX, GraphKind::Place),
            b"redpile: graph: node 4294967295 place\n",
        ),
        (link(0, GraphKind::Field), b"redpile: graph: link 0 field\n"),
        (link(2, GraphKind::End), b"redpile: graph: link 2 end\n"),
        (
            link(u32::MAX, GraphKind::Range),
            b"redpile: graph: link 4294967295 range\n",
        ),
        (graph(GraphRefusal::NoMemory), b"redpile: out of memory\n"),
    ];
    for (fault, want) in rows {
        assert_line(&rt, rt.alloc(), &fault, want)?;
    }
    Ok(())
}

#[test]
fn line_of_a_block(rt: HostRuntime) -> Result<(), Fail> {
    let text = b"minecraft:observer[facing=up]";
    let name = Raw {
        items: Vec::from_slice(rt.alloc(), text)?,
    };
    let fault = build(BuildRefusal::Block { name });
    assert_eq!(rt; block_name(&fault).len(), text.len());
    let mut line = LineBuf::new(rt.alloc(), 128 + text.len())?;
    push_fault(&mut line, &fault);
    let want = b"redpile: block: minecraft:observer[facing=up]\n";
    assert_eq!(rt; line.bytes(), want.as_slice());
    Ok(())
}
