// A script of the line protocol: a line run on a model, and its answer written.
#![tactic(auto)]

pub mod answers;
