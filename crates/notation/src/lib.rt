// How questions and answers are spelt: bytes in hexadecimal, the words of a record, frames and replies, and a sample
// tag.
#![tactic(auto)]

pub mod encoding;
pub mod error;
pub mod hexadecimal;
pub mod line;
pub mod sample;
pub mod words;
