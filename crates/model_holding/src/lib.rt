// Whether bytes that the host lends hold a model (docs/LAYOUT.md, "A model").
#![tactic(auto)]

pub mod holds;
