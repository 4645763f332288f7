// Points, and the distance from one to another.
#![tactic(auto)]

pub mod vec3f;
