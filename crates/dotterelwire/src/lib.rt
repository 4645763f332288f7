// The static library that a host links (docs/ABI.md): each function of the crates that answer a host, under its C name and with its clauses again, of the words and numbers that C hands over.
// Kept: numbers one by one in the exports, since C hands them over so.
#![tactic(auto)]

mod additions;
mod changes;
mod lists;
mod numbers;
mod parameters;
mod point;
mod questions;
mod tables;
