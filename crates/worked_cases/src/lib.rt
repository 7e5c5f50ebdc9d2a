// Worked cases at the limits, which hold the definitions that contracts cite to a second implementation. It lists them,
// in specs/; each function here does nothing, and has as its contract that one listing holds: the definitions, computed
// on every row, give what the row says.
#![tactic(auto)]

mod checks;
mod commands;
mod frames;
mod notations;
mod pairs;
mod records;
mod replies;
mod sends;
mod sheets;
mod steps;
mod sweeps;
mod tables;
