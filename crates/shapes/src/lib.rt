// The two shapes, with the distance to each.
#![tactic(auto)]

pub mod sphere;
pub mod torus;
