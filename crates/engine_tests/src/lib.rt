//! Tests of the engines: the world that plays its blocks, the machine that plays a graph, the
//! checker of orders, and builds that take over the end of a run.
#![tactic(auto)]

#[cfg(test)]
mod machine;
#[cfg(test)]
mod order;
#[cfg(test)]
mod saved;
#[cfg(test)]
mod world;
