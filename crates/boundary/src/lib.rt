// What a host program calls, through numbers and byte slices.
#![tactic(auto)]

pub mod numbers;
