// A model as a record of the line protocol: written, and read.
#![tactic(auto)]

pub mod loading;
pub mod writing;
