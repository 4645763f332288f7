// What a host calls to change a component of a model that it has in bytes (docs/ABI.md); crate wiring_calls has what changes wires, adding_calls and adding_operation_calls what adds.
#![tactic(auto)]

pub mod edits;
