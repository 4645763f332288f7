// The nodes that the tags in a model stand for.
#![tactic(auto)]

pub mod slots;
