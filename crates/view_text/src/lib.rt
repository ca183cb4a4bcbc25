//! The line of a view, mended where a few values change.
#![tactic(auto)]

mod head;
mod last_view;
#[cfg(test)]
mod tests;
mod values;

pub use last_view::LastView;
