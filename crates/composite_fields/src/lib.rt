// Fields made of fields.
#![tactic(auto)]

pub mod pair;
pub mod spoiler;
mod spoiler_field;
