//! How a call ends.

ghost use Rattle.std.specs.Prelude.{◌≡◌};
ghost use Rattle.schematic.specs.File.{plain_refusal};
ghost use Rattle.redpile_top.specs.Clauses.{status_of, status_of_cause, status_of_graph, status_of_script};
ghost use Rattle.redpile_top.specs.Statuses.{code_of};

use report::{Fault, GraphRefusal};
use schematic::BuildRefusal;
use script::ScriptRefusal;

/// How a call ended. `code` gives the exit status of the program.
#[derive(Clone, Copy, Debug, PartialEq, Eq)]
pub enum Status {
    /// The whole text was written.
    Done,
    /// The words have none of the forms.
    Usage,
    /// A file couldn't be read.
    ReadFault,
    /// A prefix of the text was written.
    WriteFault,
    /// The build's file was refused, for another cause than a block.
    BadBuild,
    /// A block of the build's palette isn't known.
    BadBlock,
    /// The script's file was refused.
    BadScript,
    /// The order's file was refused.
    BadOrder,
    /// There wasn't enough memory; nothing was written.
    NoMemory,
    /// The graph's file was refused.
    BadGraph,
}

impl Status {
    /// The exit status: 0 for Done, and another number for each refusal.
    pub fn code(self) -> u8
        ensures { result ≡ code_of self }
    {
        match self {
            Status::Done => 0,
            Status::Usage => 2,
            Status::ReadFault => 3,
            Status::WriteFault => 4,
            Status::BadBuild => 5,
            Status::BadBlock => 6,
            Status::BadScript => 7,
            Status::BadOrder => 8,
            Status::NoMemory => 9,
            Status::BadGraph => 10,
        }
    }
}

fn status_of_build(refusal: &BuildRefusal) -> Status
    ensures { result ≡ status_of_cause (plain_refusal refusal.now) }
{
    match refusal {
        BuildRefusal::Block { .. } => Status::BadBlock,
        BuildRefusal::NoMemory => Status::NoMemory,
        _ => Status::BadBuild,
    }
}

fn status_of_script(refusal: ScriptRefusal) -> Status
    ensures { result ≡ status_of_script refusal }
{
    match refusal {
        ScriptRefusal::Line { .. } => Status::BadScript,
        ScriptRefusal::NoMemory => Status::NoMemory,
    }
}

fn status_of_graph(refusal: GraphRefusal) -> Status
    ensures { result ≡ status_of_graph refusal }
{
    match refusal {
        GraphRefusal::NoMemory => Status::NoMemory,
        GraphRefusal::Json
        | GraphRefusal::Whole
        | GraphRefusal::Node { .. }
        | GraphRefusal::Link { .. } => Status::BadGraph,
    }
}

/// The status that a fault stands for.
pub fn status_of(fault: &Fault) -> Status
    ensures { result ≡ status_of fault.now }
{
    match fault {
        Fault::Usage => Status::Usage,
        Fault::Read => Status::ReadFault,
        Fault::Write => Status::WriteFault,
        Fault::Build { refusal } => status_of_build(refusal),
        Fault::BuildTooLong => Status::BadBuild,
        Fault::Script { refusal } => status_of_script(*refusal),
        Fault::ScriptTooLong => Status::BadScript,
        Fault::Memory => Status::NoMemory,
        Fault::Order { .. } | Fault::OrderTooLong => Status::BadOrder,
        Fault::Graph { refusal } => status_of_graph(*refusal),
        Fault::GraphTooLong => Status::BadGraph,
    }
}
