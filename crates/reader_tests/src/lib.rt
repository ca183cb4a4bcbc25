//! Tests of what is read and written: files, tags, builds, scripts, graph files and lines.
#![tactic(auto)]

#[cfg(test)]
mod entity_tests;
#[cfg(test)]
mod fault_line_tests;
#[cfg(test)]
mod graph_file_tests;
#[cfg(test)]
mod io_tests;
#[cfg(test)]
mod nbt_tests;
#[cfg(test)]
mod report_tests;
#[cfg(test)]
mod schematic_tests;
#[cfg(test)]
mod script_tests;
#[cfg(test)]
mod spelling;
#[cfg(test)]
mod writer_tests;
