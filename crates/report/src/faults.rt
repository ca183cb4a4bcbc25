//! The line of a fault.

ghost use Rattle.std.specs.Prelude.{◌≡◌, ◌≤◌, ◌+◌, ◌++◌, length, codes, decimal};
ghost use Rattle.report.specs.RoomyText.{Appends};
ghost use Rattle.report.specs.FaultLine.{fault_line, fault_text, build_text, nbt_kind_text, field_text, script_text, script_kind_text, order_kind_text, graph_text, graph_kind_text, block_name, name_refused};

use crate::{Fault, GraphKind, GraphRefusal, LineBuf, OrderKind};
use build::Pos;
use nbt::NbtKind;
use schematic::{BuildRefusal, FieldName};
use script::{ScriptKind, ScriptRefusal};

const OUT_OF_MEMORY: &[u8] = b"out of memory";

/// Appends the line that tells what went wrong. The name of a block stands in it as it stood in
/// the file.
#[tactic(auto, unfolding(crate::specs::FaultLine::fault_line))]
pub fn push_fault(buf: &mut LineBuf, fault: &Fault)
    requires { 128 + length (block_name fault.now) ≤ buf.old.spare }
    ensures { Appends buf.old buf.new (fault_line fault.now) }
{
    buf.push(b"redpile: ");
    push_fault_text(buf, fault);
    buf.push(b"\n");
}

// A fault takes at most 100 bytes and, where it has one, the name of a block.
fn push_fault_text(buf: &mut LineBuf, fault: &Fault)
    requires { 110 + length (block_name fault.now) ≤ buf.old.spare }
    ensures text { Appends buf.old buf.new (fault_text fault.now) }
    ensures short { buf.old.spare ≤ buf.new.spare + 100 + length (block_name fault.now) }
{
    match fault {
        Fault::Usage => buf.push(b"usage"),
        Fault::Read => buf.push(b"read fault"),
        Fault::Write => buf.push(b"write fault"),
        Fault::Build { refusal } => push_build_refusal(buf, refusal),
        Fault::BuildTooLong => buf.push(b"build: too long"),
        Fault::Script { refusal } => push_script_refusal(buf, *refusal),
        Fault::ScriptTooLong => buf.push(b"script: line 0 too long"),
        Fault::Memory => buf.push(OUT_OF_MEMORY),
        Fault::Order { line, tick, kind } => push_order_fault(buf, *line, *tick, *kind),
        Fault::OrderTooLong => buf.push(b"order: line 0 too long"),
        Fault::Graph { refusal } => push_graph_refusal(buf, *refusal),
        Fault::GraphTooLong => buf.push(b"graph: too long"),
    }
}

fn push_build_refusal(buf: &mut LineBuf, refusal: &BuildRefusal)
    requires { 110 + length (name_refused refusal.now) ≤ buf.old.spare }
    ensures text { Appends buf.old buf.new (build_text refusal.now) }
    ensures short { buf.old.spare ≤ buf.new.spare + 100 + length (name_refused refusal.now) }
{
    match refusal {
        BuildRefusal::Compressed => buf.push(b"build: compressed"),
        BuildRefusal::Nbt { place, kind } => push_nbt_fault(buf, *place, *kind),
        BuildRefusal::Missing { field } => push_words(buf, b"build: missing ", field_text(*field)),
        BuildRefusal::WrongKind { field } => {
            push_words(buf, b"build: wrong kind ", field_text(*field))
        }
        BuildRefusal::Version => buf.push(b"build: version"),
        BuildRefusal::Volume => buf.push(b"build: volume"),
        BuildRefusal::PaletteClash => buf.push(b"build: palette clash"),
        BuildRefusal::Data { place } => push_numbered(buf, b"build: data at ", *place),
        BuildRefusal::Block { name } => push_words(buf, b"block: ", &name.items),
        BuildRefusal::Signal { pos } => push_signal_fault(buf, *pos),
        BuildRefusal::Pending { group } => push_numbered(buf, b"build: pending at ", *group as u64),
        BuildRefusal::NoMemory => buf.push(OUT_OF_MEMORY),
    }
}

// Words and then further words.
fn push_words(buf: &mut LineBuf, first: &[u8], second: &[u8])
    requires { length first.now + length second.now ≤ buf.old.spare }
    ensures { Appends buf.old buf.new (first.now ++ second.now) }
{
    buf.push(first);
    buf.push(second);
}

// Words and then a number.
fn push_numbered(buf: &mut LineBuf, words: &[u8], number: u64)
    requires { length words.now + 20 ≤ buf.old.spare }
    ensures text { Appends buf.old buf.new (words.now ++ decimal number) }
    ensures short { buf.old.spare ≤ buf.new.spare + length words.now + 20 }
{
    buf.push(words);
    buf.push_number(number);
}

fn push_nbt_fault(buf: &mut LineBuf, place: u64, kind: NbtKind)
    requires { 110 ≤ buf.old.spare }
    ensures text { Appends buf.old buf.new (build_text (BuildRefusal.Nbt place kind)) }
    ensures short { buf.old.spare ≤ buf.new.spare + 100 }
{
    buf.push(b"build: nbt ");
    buf.push(nbt_kind_text(kind));
    buf.push(b" at ");
    buf.push_number(place);
}

fn push_signal_fault(buf: &mut LineBuf, pos: Pos)
    requires { 110 ≤ buf.old.spare }
    ensures text { Appends buf.old buf.new (build_text (BuildRefusal.Signal pos)) }
    ensures short { buf.old.spare ≤ buf.new.spare + 100 }
{
    buf.push(b"build: signal at ");
    buf.push_place(pos);
}

fn push_script_refusal(buf: &mut LineBuf, refusal: ScriptRefusal)
    requires { 110 ≤ buf.old.spare }
    ensures text { Appends buf.old buf.new (script_text refusal) }
    ensures short { buf.old.spare ≤ buf.new.spare + 100 }
{
    match refusal {
        ScriptRefusal::Line { line, kind } => {
            push_indexed(buf, b"script: line ", line, script_kind_text(kind))
        }
        ScriptRefusal::NoMemory => buf.push(OUT_OF_MEMORY),
    }
}

fn push_order_fault(buf: &mut LineBuf, line: u32, tick: u32, kind: OrderKind)
    requires { 110 ≤ buf.old.spare }
    ensures text { Appends buf.old buf.new (fault_text (Fault.Order line tick kind)) }
    ensures short { buf.old.spare ≤ buf.new.spare + 100 }
{
    push_numbered(buf, b"order: line ", line as u64);
    push_indexed(buf, b" tick ", tick, order_kind_text(kind));
}

fn push_graph_refusal(buf: &mut LineBuf, refusal: GraphRefusal)
    requires { 110 ≤ buf.old.spare }
    ensures text { Appends buf.old buf.new (graph_text refusal) }
    ensures short { buf.old.spare ≤ buf.new.spare + 100 }
{
    match refusal {
        GraphRefusal::Json => buf.push(b"graph: json"),
        GraphRefusal::Whole => buf.push(b"graph: whole"),
        GraphRefusal::Node { index, kind } => {
            push_indexed(buf, b"graph: node ", index, graph_kind_text(kind))
        }
        GraphRefusal::Link { index, kind } => {
            push_indexed(buf, b"graph: link ", index, graph_kind_text(kind))
        }
        GraphRefusal::NoMemory => buf.push(OUT_OF_MEMORY),
    }
}

// Words, a number, a space and the word of a kind.
fn push_indexed(buf: &mut LineBuf, words: &[u8], number: u32, kind: &[u8])
    requires { length words.now + length kind.now + 21 ≤ buf.old.spare }
    ensures text { Appends buf.old buf.new (words.now ++ decimal number ++ codes " " ++ kind.now) }
    ensures short { buf.old.spare ≤ buf.new.spare + length words.now + length kind.now + 21 }
{
    push_numbered(buf, words, number as u64);
    push_words(buf, b" ", kind);
}

fn nbt_kind_text(kind: NbtKind) -> &'static [u8]
    ensures text { result.now ≡ nbt_kind_text kind }
    ensures short { length result.now ≤ 17 }
{
    match kind {
        NbtKind::Truncated => b"truncated",
        NbtKind::BadType => b"bad type",
        NbtKind::BadLength => b"bad length",
        NbtKind::TooDeep => b"too deep",
        NbtKind::Trailing => b"trailing",
        NbtKind::RootNotCompound => b"root not compound",
    }
}

fn field_text(field: FieldName) -> &'static [u8]
    ensures text { result.now ≡ field_text field }
    ensures short { length result.now ≤ 14 }
{
    match field {
        FieldName::Schematic => b"Schematic",
        FieldName::Version => b"Version",
        FieldName::Width => b"Width",
        FieldName::Height => b"Height",
        FieldName::Length => b"Length",
        FieldName::Blocks => b"Blocks",
        FieldName::Palette => b"Palette",
        FieldName::BlockData => b"BlockData",
        FieldName::Data => b"Data",
        FieldName::Metadata => b"Metadata",
        FieldName::RedpilePending => b"RedpilePending",
    }
}

fn script_kind_text(kind: ScriptKind) -> &'static [u8]
    ensures text { result.now ≡ script_kind_text kind }
    ensures short { length result.now ≤ 14 }
{
    match kind {
        ScriptKind::Word => b"word",
        ScriptKind::Number => b"number",
        ScriptKind::NotClickable => b"not clickable",
        ScriptKind::NotWire => b"not wire",
        ScriptKind::TooManyTicks => b"too many ticks",
    }
}

fn order_kind_text(kind: OrderKind) -> &'static [u8]
    ensures text { result.now ≡ order_kind_text kind }
    ensures short { length result.now ≤ 8 }
{
    match kind {
        OrderKind::Short => b"short",
        OrderKind::Differs => b"differs",
        OrderKind::Form => b"form",
        OrderKind::NotDue => b"not due",
        OrderKind::Twice => b"twice",
        OrderKind::Priority => b"priority",
        OrderKind::Left => b"left",
        OrderKind::Trailing => b"trailing",
    }
}

fn graph_kind_text(kind: GraphKind) -> &'static [u8]
    ensures text { result.now ≡ graph_kind_text kind }
    ensures short { length result.now ≤ 5 }
{
    match kind {
        GraphKind::Field => b"field",
        GraphKind::Range => b"range",
        GraphKind::Place => b"place",
        GraphKind::End => b"end",
    }
}
