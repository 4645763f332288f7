// The commands of the line protocol: which one a line names, and its arguments.
#![tactic(auto)]

pub mod arguments;
pub mod command;
