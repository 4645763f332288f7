// The order of a form.
#![tactic(auto)]

pub mod computation_graph;
mod wiring;
