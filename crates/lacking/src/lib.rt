// What a form lacks.
#![tactic(auto)]

pub mod least;
