//! Tests of graphs, of the passes that make them smaller, and of what a build is compiled to.
#![tactic(auto)]

#[cfg(test)]
mod compiled_tests;
#[cfg(test)]
mod fold_tests;
#[cfg(test)]
mod graph_tests;
#[cfg(test)]
mod left;
#[cfg(test)]
mod links_dropped_tests;
#[cfg(test)]
mod small_builds;
#[cfg(test)]
mod unreach_tests;
#[cfg(test)]
mod wire_graph_tests;
