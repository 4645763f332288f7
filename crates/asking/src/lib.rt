// The call that asks a model for its number at a point (docs/ABI.md).
#![tactic(auto)]

pub mod form;
