// Fields: whatever answers a reader, as a list of tags.
#![tactic(auto)]

pub mod buffer;
pub mod declined;
pub mod field;
pub mod hearing;
pub mod lending;
