// The words of the chip SL3ICS31's protocol: commands with their codes and lengths, parameters, names and refusals.
#![tactic(auto)]

pub mod command;
pub mod names;
pub mod refusal;
