// The archive: lines as bytes, and bytes as lines.
#![tactic(auto)]

pub mod line;
pub mod reader;
mod sort;
pub mod writer;
