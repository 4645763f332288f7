// A model written into bytes that the host lends (docs/LAYOUT.md, "A model").
#![tactic(auto)]

pub mod encode;
pub mod sizes;
