// Lists of items of any kind, in storage that the caller lends.
#![tactic(auto)]

mod filling;
pub mod vec;
