// What the calls that change a model share: how a call ends, and what it promises.
#![tactic(auto)]

pub mod store;
