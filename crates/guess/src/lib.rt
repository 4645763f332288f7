// Guesses at numbers, which others check: a wrong one costs time only, so that none has a contract.
#![tactic(auto)]

pub mod root;
