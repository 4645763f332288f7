// A form's number at a point.
#![tactic(auto)]

pub mod evaluate;
