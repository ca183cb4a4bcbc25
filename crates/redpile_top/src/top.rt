//! The top call.

ghost use Rattle.std.specs.Prelude.{◌≡◌, ◌≢◌, ◌↔◌, ◌≤◌, ◌++◌, [], List, ℕ, map, Some, None, IfOk, IfErr, IfSome, IsNone, OnOk, OnErr, MatchOption, string_bytes};
ghost use Rattle.rp_io.specs.Causes.{Rose, HasCause, Wrote, WrotePrefix};
ghost use Rattle.report.specs.FaultLine.{fault_line, block_line_begin, block_name, newline};
ghost use Rattle.report.specs.RoomyText.{empty_text};
ghost use Rattle.script.specs.Clickable.{takes_click, is_wire_at};
ghost use Rattle.script.specs.Fit.{IsFit};
ghost use Rattle.redpile_top.specs.Forms.{form_of, word};
ghost use Rattle.graph.specs.Sound.{IsSound};
ghost use Rattle.graph_file.specs.Targets.{takes_click as node_takes_click, is_wire_at as is_wire_node_at};
ghost use Rattle.redpile_top.specs.Files.{tests_of, graph_tests};
ghost use Rattle.redpile_top.specs.Written.{WroteChecked, WroteCheckedPrefix, WrotePlayed, WrotePlayedPrefix, WroteSummary, WroteSummaryPrefix};
ghost use Rattle.redpile_top.specs.Ends.{fault_of_order, Accepted, Did, BuildFaults, CheckFaults, PlayFaults, UnreadFaults, FaultsOf, IsBuildOf, IsGraphOf, DidCommand, BeganCommand, Ends, Ran};
ghost use Rattle.redpile_top.specs.Clauses.{IsConstant, IsConstantFault, AskedClause, UnreadClause, BuildClause, BlockClause, ScriptClause, OrderClause, GraphClause, DoneClause, FrontClause, CompleteClause, LineClause};

use crate::commands::{bench, perform, play_graph, put_checked};
use crate::form::{Command, Form, form_of, word};
use crate::status::{Status, status_of};
use build::Build;
use graph::Graph;
use graph_file::{PlacedTargets, from_bytes};
use player::PlayRefusal;
use report::{Fault, LineBuf, push_fault};
use rp_io::{Inputs, ReadRefusal, Sink, WriteFault, put_all, read_whole};
use schematic::{BuildRefusal, read_build};
use script::{Script, read_script, read_script_on};
use std::alloc::Global;
use world_order::{OrderRefusal, check};

/// The most bytes that a build's file may have.
const BUILD_LIMIT: u64 = 67_108_864;

/// The most bytes that a script's file may have.
const SCRIPT_LIMIT: u64 = 1_048_576;

/// The most bytes that an order's file may have.
const ORDER_LIMIT: u64 = 268_435_456;

/// The most bytes that a graph's file may have.
const GRAPH_LIMIT: u64 = 268_435_456;

/// Room for the line of every fault but for the name of a block.
const FAULT_ROOM: usize = 128;

/// Reads a build and a script, in this order.
fn accepted<I: Inputs>(
    alloc: Global,
    inputs: &mut I,
    build: &str,
    script: &str,
) -> Result<(Build, Script), Fault>
    ensures files { I.file inputs.new ≡ I.file inputs.old }
    ensures asked { (name : List ℕ) → name ≢ build.now → name ≢ script.now → I.asked inputs.new name ≡ I.asked inputs.old name }
    ensures later { I.faults inputs.old ≤ I.faults inputs.new }
    ensures ok { IfOk result (λ found. Accepted (IsBuildOf (I.file inputs.old build.now)) tests_of (I.file inputs.old script.now) found.0 found.1) }
    ensures script { IfOk result (λ found. IsFit (takes_click found.0) (is_wire_at found.0) found.1) }
    ensures cause { IfErr result (BuildFaults (I.file inputs.old build.now) (I.file inputs.old script.now) (Rose (I.faults inputs.old) (I.faults inputs.new)) ⊥) }
{
    let bytes = match read_whole(alloc, inputs, build, BUILD_LIMIT) {
        Ok(bytes) => bytes,
        Err(ReadRefusal::ReadFault) => return Err(Fault::Read),
        Err(ReadRefusal::TooLong) => return Err(Fault::BuildTooLong),
        Err(ReadRefusal::NoMemory) => return Err(Fault::Memory),
    };
    let build = match read_build(alloc, &bytes) {
        Ok(build) => build,
        Err(refusal) => return Err(Fault::Build { refusal }),
    };
    let bytes = match read_whole(alloc, inputs, script, SCRIPT_LIMIT) {
        Ok(bytes) => bytes,
        Err(ReadRefusal::ReadFault) => return Err(Fault::Read),
        Err(ReadRefusal::TooLong) => return Err(Fault::ScriptTooLong),
        Err(ReadRefusal::NoMemory) => return Err(Fault::Memory),
    };
    match read_script(alloc, &bytes, &build) {
        Ok(script) => Ok((build, script)),
        Err(refusal) => Err(Fault::Script { refusal }),
    }
}

/// A command over a build and a script.
fn on_build<I: Inputs, O: Sink>(
    alloc: Global,
    command: Command,
    inputs: &mut I,
    build: &str,
    script: &str,
    out: &mut O,
) -> Result<(), Fault>
    ensures files { I.file inputs.new ≡ I.file inputs.old }
    ensures asked { (name : List ℕ) → name ≢ build.now → name ≢ script.now → I.asked inputs.new name ≡ I.asked inputs.old name }
    ensures read_later { I.faults inputs.old ≤ I.faults inputs.new }
    ensures wrote_later { O.faults out.old ≤ O.faults out.new }
    ensures ends { Ends (BuildFaults (I.file inputs.old build.now) (I.file inputs.old script.now) (Rose (I.faults inputs.old) (I.faults inputs.new)) (Rose (O.faults out.old) (O.faults out.new)))
        (out.new ≡ out.old)
        (Did (IsBuildOf (I.file inputs.old build.now)) tests_of (I.file inputs.old script.now) (DidCommand command (O.written out.old) (O.written out.new)))
        (Did (IsBuildOf (I.file inputs.old build.now)) tests_of (I.file inputs.old script.now) (BeganCommand command (O.written out.old) (O.written out.new))) result }
{
    let (build, script) = match accepted(alloc, inputs, build, script) {
        Ok(found) => found,
        Err(fault) => return Err(fault),
    };
    match perform(alloc, command, &build, &script, out) {
        Ok(()) => Ok(()),
        Err(PlayRefusal::WriteFault) => Err(Fault::Write),
        Err(PlayRefusal::NoMemory) => Err(Fault::Memory),
    }
}

/// The fault that a refused order is.
fn fault_of_order(refusal: OrderRefusal) -> Fault
    ensures { result ≡ fault_of_order refusal }
{
    match refusal {
        OrderRefusal::At { line, tick, kind } => Fault::Order { line, tick, kind },
        OrderRefusal::NoMemory => Fault::Memory,
    }
}

/// The command `check`.
fn on_order<I: Inputs, O: Sink>(
    alloc: Global,
    inputs: &mut I,
    build: &str,
    script: &str,
    order: &str,
    out: &mut O,
) -> Result<(), Fault>
    ensures files { I.file inputs.new ≡ I.file inputs.old }
    ensures asked { (name : List ℕ) → name ≢ build.now → name ≢ script.now → name ≢ order.now → I.asked inputs.new name ≡ I.asked inputs.old name }
    ensures read_later { I.faults inputs.old ≤ I.faults inputs.new }
    ensures wrote_later { O.faults out.old ≤ O.faults out.new }
    ensures ends { Ends (CheckFaults (I.file inputs.old build.now) (I.file inputs.old script.now) (I.file inputs.old order.now) (Rose (I.faults inputs.old) (I.faults inputs.new)) (Rose (O.faults out.old) (O.faults out.new)))
        (out.new ≡ out.old)
        (Did (IsBuildOf (I.file inputs.old build.now)) tests_of (I.file inputs.old script.now) (WroteChecked (I.file inputs.old order.now) (O.written out.old) (O.written out.new)))
        (Did (IsBuildOf (I.file inputs.old build.now)) tests_of (I.file inputs.old script.now) (WroteCheckedPrefix (I.file inputs.old order.now) (O.written out.old) (O.written out.new))) result }
{
    let (build, script) = match accepted(alloc, inputs, build, script) {
        Ok(found) => found,
        Err(fault) => return Err(fault),
    };
    let text = match read_whole(alloc, inputs, order, ORDER_LIMIT) {
        Ok(text) => text,
        Err(ReadRefusal::ReadFault) => return Err(Fault::Read),
        Err(ReadRefusal::TooLong) => return Err(Fault::OrderTooLong),
        Err(ReadRefusal::NoMemory) => return Err(Fault::Memory),
    };
    let checked = match check(alloc, &build, &script, &text) {
        Ok(checked) => checked,
        Err(refusal) => return Err(fault_of_order(refusal)),
    };
    match put_checked(alloc, checked, out) {
        Ok(()) => Ok(()),
        Err(PlayRefusal::WriteFault) => Err(Fault::Write),
        Err(PlayRefusal::NoMemory) => Err(Fault::Memory),
    }
}

/// Reads a graph and a script of it, in this order.
fn accepted_graph<I: Inputs>(
    alloc: Global,
    inputs: &mut I,
    graph: &str,
    script: &str,
) -> Result<(Graph, Script), Fault>
    ensures files { I.file inputs.new ≡ I.file inputs.old }
    ensures asked { (name : List ℕ) → name ≢ graph.now → name ≢ script.now → I.asked inputs.new name ≡ I.asked inputs.old name }
    ensures later { I.faults inputs.old ≤ I.faults inputs.new }
    ensures ok { IfOk result (λ found. Accepted (IsGraphOf (I.file inputs.old graph.now)) graph_tests (I.file inputs.old script.now) found.0.nodes found.1) }
    ensures sound { IfOk result (λ found. IsSound found.0.nodes) }
    ensures script { IfOk result (λ found. IsFit (node_takes_click found.0.nodes) (is_wire_node_at found.0.nodes) found.1) }
    ensures cause { IfErr result (PlayFaults (I.file inputs.old graph.now) (I.file inputs.old script.now) (Rose (I.faults inputs.old) (I.faults inputs.new)) ⊥) }
{
    let bytes = match read_whole(alloc, inputs, graph, GRAPH_LIMIT) {
        Ok(bytes) => bytes,
        Err(ReadRefusal::ReadFault) => return Err(Fault::Read),
        Err(ReadRefusal::TooLong) => return Err(Fault::GraphTooLong),
        Err(ReadRefusal::NoMemory) => return Err(Fault::Memory),
    };
    let graph = match from_bytes(alloc, &bytes) {
        Ok(graph) => graph,
        Err(refusal) => return Err(Fault::Graph { refusal }),
    };
    let text = match read_whole(alloc, inputs, script, SCRIPT_LIMIT) {
        Ok(text) => text,
        Err(ReadRefusal::ReadFault) => return Err(Fault::Read),
        Err(ReadRefusal::TooLong) => return Err(Fault::ScriptTooLong),
        Err(ReadRefusal::NoMemory) => return Err(Fault::Memory),
    };
    let targets = match PlacedTargets::new(alloc, &graph) {
        Ok(targets) => targets,
        Err(_) => return Err(Fault::Memory),
    };
    match read_script_on(alloc, &text, &targets) {
        Ok(script) => Ok((graph, script)),
        Err(refusal) => Err(Fault::Script { refusal }),
    }
}

/// The command `play`.
fn on_graph<I: Inputs, O: Sink>(
    alloc: Global,
    inputs: &mut I,
    graph: &str,
    script: &str,
    out: &mut O,
) -> Result<(), Fault>
    ensures files { I.file inputs.new ≡ I.file inputs.old }
    ensures asked { (name : List ℕ) → name ≢ graph.now → name ≢ script.now → I.asked inputs.new name ≡ I.asked inputs.old name }
    ensures read_later { I.faults inputs.old ≤ I.faults inputs.new }
    ensures wrote_later { O.faults out.old ≤ O.faults out.new }
    ensures ends { Ends (PlayFaults (I.file inputs.old graph.now) (I.file inputs.old script.now) (Rose (I.faults inputs.old) (I.faults inputs.new)) (Rose (O.faults out.old) (O.faults out.new)))
        (out.new ≡ out.old)
        (Did (IsGraphOf (I.file inputs.old graph.now)) graph_tests (I.file inputs.old script.now) (WrotePlayed (O.written out.old) (O.written out.new)))
        (Did (IsGraphOf (I.file inputs.old graph.now)) graph_tests (I.file inputs.old script.now) (WrotePlayedPrefix (O.written out.old) (O.written out.new))) result }
{
    let (graph, script) = match accepted_graph(alloc, inputs, graph, script) {
        Ok(found) => found,
        Err(fault) => return Err(fault),
    };
    match play_graph(alloc, &graph, &script, out) {
        Ok(()) => Ok(()),
        Err(PlayRefusal::WriteFault) => Err(Fault::Write),
        Err(PlayRefusal::NoMemory) => Err(Fault::Memory),
    }
}

/// The command `bench`.
fn on_units<O: Sink>(alloc: Global, units: u32, out: &mut O) -> Result<(), Fault>
    requires some { 1 ≤ units }
    requires few { units ≤ 4000 }
    ensures wrote_later { O.faults out.old ≤ O.faults out.new }
    ensures ends { Ends (UnreadFaults (Rose (O.faults out.old) (O.faults out.new))) (out.new ≡ out.old)
        (WroteSummary units (O.written out.old) (O.written out.new)) (WroteSummaryPrefix units (O.written out.old) (O.written out.new)) result }
{
    match bench(alloc, units, out) {
        Ok(()) => Ok(()),
        Err(PlayRefusal::WriteFault) => Err(Fault::Write),
        Err(PlayRefusal::NoMemory) => Err(Fault::Memory),
    }
}

/// What words of this form ask for.
fn run_form<I: Inputs, O: Sink>(
    alloc: Global,
    form: Form,
    words: &[String],
    inputs: &mut I,
    out: &mut O,
) -> Result<(), Fault>
    requires { form_of (map string_bytes words.now) ≡ Some form }
    ensures files { I.file inputs.new ≡ I.file inputs.old }
    ensures unread { UnreadClause (Some form) (inputs.new ≡ inputs.old) }
    ensures asked { let names = map string_bytes words.now in AskedClause (Some form) names (I.asked inputs.old) (I.asked inputs.new) }
    ensures read_later { I.faults inputs.old ≤ I.faults inputs.new }
    ensures wrote_later { O.faults out.old ≤ O.faults out.new }
    ensures ran { let names = map string_bytes words.now in Ran (Some form) (I.file inputs.old) names (Rose (I.faults inputs.old) (I.faults inputs.new)) (Rose (O.faults out.old) (O.faults out.new))
        (out.new ≡ out.old) (O.written out.old) (O.written out.new) result }
{
    match form {
        Form::OnBuild { command } => {
            on_build(alloc, command, inputs, word(words, 1), word(words, 2), out)
        }
        Form::Check => on_order(
            alloc,
            inputs,
            word(words, 1),
            word(words, 2),
            word(words, 3),
            out,
        ),
        Form::Play => on_graph(alloc, inputs, word(words, 1), word(words, 2), out),
        Form::Bench { units } => on_units(alloc, units, out),
    }
}

/// The call but for its line and status, and room for the line. No room is needed where the words
/// have no form, and there is none where memory ran out at once.
fn run<I: Inputs, O: Sink>(
    alloc: Global,
    words: &[String],
    inputs: &mut I,
    out: &mut O,
) -> (Result<(), Fault>, Option<LineBuf>)
    ensures files { I.file inputs.new ≡ I.file inputs.old }
    ensures unread { let names = map string_bytes words.now in UnreadClause (form_of names) (inputs.new ≡ inputs.old) }
    ensures asked { let names = map string_bytes words.now in AskedClause (form_of names) names (I.asked inputs.old) (I.asked inputs.new) }
    ensures read_later { I.faults inputs.old ≤ I.faults inputs.new }
    ensures wrote_later { O.faults out.old ≤ O.faults out.new }
    ensures ran { let names = map string_bytes words.now in Ran (form_of names) (I.file inputs.old) names (Rose (I.faults inputs.old) (I.faults inputs.new)) (Rose (O.faults out.old) (O.faults out.new))
        (out.new ≡ out.old) (O.written out.old) (O.written out.new) result.0 }
    ensures room { MatchOption result.1 (IsConstant result.0) (λ line. line ≡ empty_text 128) }
{
    match form_of(words) {
        None => (Err(Fault::Usage), None),
        Some(form) => match LineBuf::new(alloc, FAULT_ROOM) {
            Ok(line) => (run_form(alloc, form, words, inputs, out), Some(line)),
            Err(_) => (Err(Fault::Memory), None),
        },
    }
}

/// The name of the block that a fault is about, if it is about one.
#[tactic(auto, unfolding(report::specs::FaultLine::fault_line))]
fn refused_block(fault: &Fault) -> Option<&[u8]>
    ensures some { IfSome result (λ name. fault_line fault.now ≡ block_line_begin ++ (name.now ++ newline)) }
    ensures none { IsNone result → block_name fault.now ≡ [] }
{
    match fault {
        Fault::Build {
            refusal: BuildRefusal::Block { name },
        } => Some(&name.items),
        _ => None,
    }
}

/// Writes the line of a block in three pieces, so that it needs no memory.
fn put_block<E: Sink>(err: &mut E, name: &[u8]) -> Result<(), WriteFault>
    ensures all { OnOk result (Wrote (E.written err.old) (E.written err.new) (block_line_begin ++ (name.now ++ newline))) }
    ensures front { OnErr result (WrotePrefix (E.written err.old) (E.written err.new) (block_line_begin ++ (name.now ++ newline))) }
    ensures cause { HasCause (E.faults err.old) (E.faults err.new) result }
{
    put_all(err, b"redpile: block: ")?;
    put_all(err, name)?;
    put_all(err, b"\n")
}

/// Writes the line of a fault.
fn put_fault<E: Sink>(err: &mut E, line: &mut LineBuf, fault: &Fault) -> Result<(), WriteFault>
    requires { line.old ≡ empty_text 128 }
    ensures all { OnOk result (Wrote (E.written err.old) (E.written err.new) (fault_line fault.now)) }
    ensures front { OnErr result (WrotePrefix (E.written err.old) (E.written err.new) (fault_line fault.now)) }
    ensures cause { HasCause (E.faults err.old) (E.faults err.new) result }
{
    match refused_block(fault) {
        Some(name) => put_block(err, name),
        None => {
            push_fault(line, fault);
            put_all(err, line.bytes())
        }
    }
}

/// Writes the line of a fault for which there is no room.
#[tactic(auto, unfolding(report::specs::FaultLine::fault_line))]
fn put_constant<E: Sink>(err: &mut E, fault: &Fault) -> Result<(), WriteFault>
    requires { IsConstantFault fault.now }
    ensures all { OnOk result (Wrote (E.written err.old) (E.written err.new) (fault_line fault.now)) }
    ensures front { OnErr result (WrotePrefix (E.written err.old) (E.written err.new) (fault_line fault.now)) }
    ensures cause { HasCause (E.faults err.old) (E.faults err.new) result }
{
    match fault {
        Fault::Usage => put_all(err, b"redpile: usage\n"),
        Fault::Memory => put_all(err, b"redpile: out of memory\n"),
        _ => unreachable!(),
    }
}

/// Writes the line of a fault, in this room if there is any.
fn put_line<E: Sink>(err: &mut E, room: Option<LineBuf>, fault: &Fault) -> Result<(), WriteFault>
    requires { MatchOption room (IsConstantFault fault.now) (λ line. line ≡ empty_text 128) }
    ensures all { OnOk result (Wrote (E.written err.old) (E.written err.new) (fault_line fault.now)) }
    ensures front { OnErr result (WrotePrefix (E.written err.old) (E.written err.new) (fault_line fault.now)) }
    ensures cause { HasCause (E.faults err.old) (E.faults err.new) result }
{
    let Some(room) = room else {
        return put_constant(err, fault);
    };
    let mut line = room;
    put_fault(err, &mut line, fault)
}

/// The whole program over its words, which don't include its own name, its files and its two
/// sinks: standard output and standard error.
///
/// `world BUILD SCRIPT` reads a build and a script and writes what the build shows: the header, a
/// line for each view, and the trailer. `compile BUILD SCRIPT [--json]` writes the text of the
/// compiled graph, or its file. `run BUILD SCRIPT [--graph] [--keep [--order]]` plays that graph and writes what it
/// shows, with its counts, behind its text with `--graph`; with `--keep` nothing is pruned, and
/// with `--order` a line for each place that fires stands before the line of its tick. `bench N`
/// plays a build of N units that it makes, 1 to 4,000, and writes a summary. `check BUILD SCRIPT
/// ORDER` reads a text such as `run --keep --order` writes and plays the blocks as it says; it
/// writes how many ticks and firings there are where all its lines are right, and names the first
/// that isn't else. `play GRAPH SCRIPT` reads a graph such as `compile --json` writes and a script of
/// it, plays the graph as it stands, and writes what `run` does. `save BUILD SCRIPT [--v3]` plays the
/// compiled graph with all its nodes and writes the file of a build that takes over the end, in the
/// third layout with `--v3`. Any other words are Usage. A fault of `err` changes no status.
pub fn redpile<I: Inputs, O: Sink, E: Sink>(
    alloc: Global,
    words: &[String],
    inputs: &mut I,
    out: &mut O,
    err: &mut E,
) -> Status
    ensures usage { let names = map string_bytes words.now in result ≡ Status.Usage ↔ form_of names ≡ None }
    ensures read { result ≡ Status.ReadFault → Rose (I.faults inputs.old) (I.faults inputs.new) }
    ensures write { result ≡ Status.WriteFault → Rose (O.faults out.old) (O.faults out.new) }
    ensures build { let names = map string_bytes words.now in BuildClause (form_of names) (I.file inputs.old) names result }
    ensures block { let names = map string_bytes words.now in BlockClause (form_of names) (I.file inputs.old) names result }
    ensures script { let names = map string_bytes words.now in ScriptClause (form_of names) (I.file inputs.old) names result }
    ensures order { let names = map string_bytes words.now in OrderClause (form_of names) (I.file inputs.old) names result }
    ensures graph { let names = map string_bytes words.now in GraphClause (form_of names) (I.file inputs.old) names result }
    ensures done { let names = map string_bytes words.now in DoneClause (form_of names) (I.file inputs.old) names (O.written out.old) (O.written out.new) result }
    ensures front { let names = map string_bytes words.now in FrontClause (form_of names) (I.file inputs.old) names (O.written out.old) (O.written out.new) result }
    ensures complete { let names = map string_bytes words.now in CompleteClause (form_of names) (I.file inputs.old) names result }
    ensures line { let names = map string_bytes words.now in
        LineClause (FaultsOf (form_of names) (I.file inputs.old) names (Rose (I.faults inputs.old) (I.faults inputs.new)) (Rose (O.faults out.old) (O.faults out.new)))
        (Rose (E.faults err.old) (E.faults err.new)) (E.written err.old) (E.written err.new) result }

    // What stays as it was.
    ensures nothing { (result ≡ Status.Done → ⊥) → (result ≡ Status.WriteFault → ⊥) → out.new ≡ out.old }
    ensures quiet { result ≡ Status.Done → err.new ≡ err.old }
    ensures unread { let names = map string_bytes words.now in UnreadClause (form_of names) (inputs.new ≡ inputs.old) }
    ensures asked { let names = map string_bytes words.now in AskedClause (form_of names) names (I.asked inputs.old) (I.asked inputs.new) }
    ensures files { I.file inputs.new ≡ I.file inputs.old }
    ensures read_later { I.faults inputs.old ≤ I.faults inputs.new }
    ensures wrote_later { O.faults out.old ≤ O.faults out.new }
    ensures told_later { E.faults err.old ≤ E.faults err.new }
{
    let (ending, room) = run(alloc, words, inputs, out);
    match ending {
        Ok(()) => Status::Done,
        Err(fault) => {
            // A fault of `err` changes nothing.
            let _line = put_line(err, room, &fault);
            status_of(&fault)
        }
    }
}
