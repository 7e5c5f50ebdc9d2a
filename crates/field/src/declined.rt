// A refusal that hands back what the call was given.
use protocol::refusal::Refusal;

/// Why a call was refused, and what it was given.
#[derive(Drop)]
pub struct Declined<T> {
    pub refusal: Refusal,
    pub given: T,
}
