// A reader's sweep of a field, slot by slot.
#![tactic(auto)]

mod asking;
pub mod counts;
pub mod ending;
pub mod kinds;
pub mod listed;
pub mod lists;
mod opening;
pub mod working;
