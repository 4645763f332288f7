// Words and strings in the bytes that the host and the core share (docs/LAYOUT.md).
#![tactic(auto)]

pub mod model;
pub mod words;
pub mod writing;
