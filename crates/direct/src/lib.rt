// A form's number at a point, straight from the bytes of a model. An answer is right; where there is none, the model is decoded, and evaluated as a record.
#![tactic(auto)]

mod along;
pub mod clear;
pub mod evaluate;
mod line;
