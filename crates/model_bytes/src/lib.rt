// A model read from bytes that the host lends (docs/LAYOUT.md, "A model").
#![tactic(auto)]

pub mod decode;
