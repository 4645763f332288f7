// The calls that show what a model holds (docs/ABI.md).
#![tactic(auto)]

pub mod tables;
