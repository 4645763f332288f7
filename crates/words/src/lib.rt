// Arithmetic on numbers of two words.
#![tactic(auto)]

pub mod product;
