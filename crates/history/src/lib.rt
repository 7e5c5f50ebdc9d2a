// One field over a list of calls: sends, gaps and sweeps.
#![tactic(auto)]

pub mod call;
pub mod running;
pub mod workspace;
