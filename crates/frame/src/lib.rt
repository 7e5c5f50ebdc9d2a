// Frames of the chip SL3ICS31: opening and making.
#![tactic(auto)]

pub mod making;
pub mod opening;
mod putting;
pub mod request;
pub mod writer;
