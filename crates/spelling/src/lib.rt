// The words of a line, and what a word spells: a number, a tag or a name, a kind of component.
#![tactic(auto)]

pub mod line_words;
pub mod number;
pub mod reading;
pub mod text;
