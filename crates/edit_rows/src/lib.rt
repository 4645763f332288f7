// A list of edits in bytes (docs/LAYOUT.md, "A list of edits").
#![tactic(auto)]

pub mod edit_row;
pub mod inputs_word;
