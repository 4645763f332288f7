// A component, and what a parameter is set to, as a kind and words (docs/LAYOUT.md).
#![tactic(auto)]

pub mod component_numbers;
pub mod component_words;
