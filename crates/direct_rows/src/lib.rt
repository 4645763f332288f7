// The rows of a model in bytes, written where they stand.
#![tactic(auto)]

pub mod put;
