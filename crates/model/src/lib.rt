// The record of a form model, and the definitions of document 01 on it.
#![tactic(auto)]

pub mod implicit_model;
pub mod model_error;
