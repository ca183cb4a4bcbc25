//! Where bytes come from and where they go: sources and sinks that count their faults.
//!
//! Code that reads and writes is generic over `Inputs` and `Sink`. Contracts speak of a source by
//! what its files hold, how often it failed and how often a name was asked, and of a sink by what
//! was written and how often it failed. An error is tied to such a count, so code that answers one
//! without a fault behind it isn't proved.
//!
//! The forms in memory tell all of this. The forms over the machine's files, standard output and
//! standard error tell no content.
#![tactic(auto)]

mod files;
mod memory;
mod sinks;
mod traits;
mod whole;

pub use files::FileInputs;
pub use memory::{Calls, Files, MemInputs, SureInputs};
pub use sinks::{CountSink, MemSink, StdSink};
pub use traits::{Failed, Inputs, ReadFailed, Sink};
pub use whole::{ReadRefusal, WriteFault, put_all, read_whole};
