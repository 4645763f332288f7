// What a model holds: found by tag, and read. Crate validity judges it by 7.
#![tactic(auto)]

pub mod find;
pub mod reading;
