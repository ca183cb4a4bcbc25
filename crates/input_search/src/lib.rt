//! The links of a compiled build: from what gives power to a node, to that node.
#![tactic(auto)]

mod add;
pub mod laws;
mod met;
mod node_links;
mod readers;
mod search;
mod wires;

pub use node_links::link;
