// Tables of tags, as fields.
#![tactic(auto)]

pub mod bench;
mod bench_field;
mod measuring;
pub mod single;
mod single_field;
mod table_walk;
