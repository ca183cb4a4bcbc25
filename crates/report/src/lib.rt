//! The texts that the program writes: headers, the lines of views and of firings, trailers, and
//! the lines of faults. Numbers are plain decimal, and each line ends with LF.
#![tactic(auto)]

ghost use Rattle.std.specs.Prelude.{◌≡◌};
ghost use Rattle.report.specs.declared.GraphRefusal.TheVariants.{NoMemory};
ghost use Rattle.report.specs.declared.Fault.TheVariants.{Memory};

use rp_text::NoMemory;
use schematic::BuildRefusal;
use script::ScriptRefusal;

mod checked;
mod faults;
mod fires;
mod header;
mod line_buf;
mod summary;
mod trailers;
mod views;

pub use checked::push_checked;
pub use faults::push_fault;
pub use fires::push_fire;
pub use header::push_header;
pub use line_buf::LineBuf;
pub use summary::push_summary;
pub use trailers::push_trailer;
pub use views::push_view;

/// What a view comes after.
#[derive(Clone, Copy, Debug, PartialEq, Eq)]
pub enum Cause {
    /// The start of the run.
    Start,
    Tick,
    /// A lever was toggled, or a button was pressed.
    Use,
    /// A plate was stepped on, or a weight was put on it.
    Press,
    /// A plate was left.
    Leave,
}

/// The numbers of nodes and links of a graph, and of the events of a run of it.
#[derive(Clone, Copy, Debug, PartialEq, Eq)]
pub struct Counts {
    pub nodes: u64,
    pub links: u64,
    pub events: u64,
}

/// What is wrong with a line of an order text.
#[derive(Clone, Copy, Debug, PartialEq, Eq)]
pub enum OrderKind {
    /// The text ends where a line, or its LF, is due.
    Short,
    /// The line isn't the one that is due.
    Differs,
    /// The line begins like that of a firing, and isn't one.
    Form,
    /// The place has no pending tick for this time.
    NotDue,
    /// The place has fired in this tick.
    Twice,
    /// A place that is due and hasn't fired comes before this one.
    Priority,
    /// The tick ends, and a place that is due hasn't fired.
    Left,
    /// Bytes follow the end.
    Trailing,
}

/// What is wrong with a node or a link of a graph's file.
#[derive(Clone, Copy, Debug, PartialEq, Eq)]
pub enum GraphKind {
    /// A field is absent or of another kind.
    Field,
    /// A number is out of its range.
    Range,
    /// A place stands twice among those of the nodes.
    Place,
    /// A link begins or ends at no node.
    End,
}

/// Why a file is no graph. An index counts from 0.
#[derive(Clone, Copy, Debug, PartialEq, Eq)]
pub enum GraphRefusal {
    /// The file is no JSON.
    Json,
    /// The value as a whole is no graph.
    Whole,
    Node { index: u32, kind: GraphKind },
    Link { index: u32, kind: GraphKind },
    NoMemory,
}

impl From<NoMemory> for GraphRefusal {
    ghost from_gives = { λ _ refusal. refusal ≡ NoMemory };

    fn from(_: NoMemory) -> Self {
        GraphRefusal::NoMemory
    }
}

/// What went wrong in a call of the program.
#[derive(Drop)]
pub enum Fault {
    /// The words are no command.
    Usage,
    /// A file couldn't be read.
    Read,
    /// The text couldn't be written whole.
    Write,
    Build {
        refusal: BuildRefusal,
    },
    /// The build's file is over its limit.
    BuildTooLong,
    Script {
        refusal: ScriptRefusal,
    },
    /// The script's file is over its limit.
    ScriptTooLong,
    Memory,
    /// A line of an order is bad. Lines count from 1, and `tick` is the number of ticks before it.
    Order {
        line: u32,
        tick: u32,
        kind: OrderKind,
    },
    /// The order's file is over its limit.
    OrderTooLong,
    Graph {
        refusal: GraphRefusal,
    },
    /// The graph's file is over its limit.
    GraphTooLong,
}

impl From<NoMemory> for Fault {
    ghost from_gives = { λ _ fault. fault ≡ Memory };

    fn from(_: NoMemory) -> Self {
        Fault::Memory
    }
}
