// Two fields of any two kinds that are given the same calls.
#![tactic(auto)]

pub mod agreement;
pub mod running;
