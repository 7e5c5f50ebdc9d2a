// Answers, as they are written.
ghost use Rattle.std.specs.Prelude.{◌≡◌, ◌≢◌, ℕ, List, [], ◌∷◌, ◌++◌, map, fold, replicate};
ghost use Rattle.std.specs.Int.{from_bool};
ghost use Rattle.field_cases.specs.Fingerprints.{blank, byte_mixed, fingerprint, tag_mixed, tags_fingerprint};

use field::lending::Lending;
use record::{MEMORY_LENGTH, Tag};
use std::fmt;
use std::marker::Model;

// Bytes up to the last that is not 00.
pub(crate) fn without_end(bytes: &[u8]) -> &[u8]
    ensures end { (n : ℕ) × (bytes.now ≡ result.now ++ replicate n 0) }
    ensures last { (front : List ℕ) → result.now ≢ front ++ 0 ∷ [] }
{
    let mut bytes = bytes;
    while let Some((0, front)) = bytes.split_last() {
        bytes = front;
    }
    bytes
}

/// A number of 64 bits that tells what bytes it has taken (FNV-1a).
#[derive(Clone, Copy)]
pub struct Fingerprint {
    value: u64,
}

// To its users it is the number.
impl Model for Fingerprint {
    ghost Value = { ℕ };

    ghost view = { λ f. f.value };

    ghost inverse = { λ n. record { value = n } };
}

impl fmt::Display for Fingerprint {
    fn fmt<W: fmt::Write>(&self, f: &mut fmt::Formatter<W>) -> fmt::Result {
        write!(f, "{:016X}", self.value)
    }
}

impl Fingerprint {
    pub(crate) fn new() -> Fingerprint
        ensures { result ≡ blank }
    {
        Fingerprint {
            value: 0xcbf2_9ce4_8422_2325,
        }
    }

    #[tactic(auto, unfolding(crate::specs::Fingerprints::byte_mixed))]
    pub(crate) fn with(self, byte: u8) -> Fingerprint
        ensures { result ≡ byte_mixed self byte }
    {
        Fingerprint {
            value: (self.value ^ u64::from(byte)).wrapping_mul(0x100_0000_01b3),
        }
    }

    pub(crate) fn with_bytes(self, bytes: &[u8]) -> Fingerprint
        ensures { result ≡ fold byte_mixed self bytes.now }
    {
        bytes.iter().fold(self, |value, byte| value.with(*byte))
    }

    fn with_locks(self, locks: &[bool; MEMORY_LENGTH]) -> Fingerprint
        ensures { result ≡ fold byte_mixed self (map from_bool locks.now) }
    {
        locks
            .iter()
            .fold(self, |value, locked| value.with(u8::from(*locked)))
    }

    // Every part of a record.
    fn with_tag(self, tag: &Tag) -> Fingerprint
        ensures { result ≡ tag_mixed self tag.now }
    {
        self.with_bytes(&tag.memory)
            .with_locks(&tag.locks)
            .with(tag.state as u8)
            .with(u8::from(tag.identified))
            .with(tag.counter)
            .with(tag.mark.number())
            .with(u8::from(tag.permission.is_some()))
            .with(tag.permission.unwrap_or(0))
    }
}

pub(crate) fn of_bytes(bytes: &[u8]) -> Fingerprint
    ensures fingerprint { result ≡ fingerprint bytes.now }
{
    Fingerprint::new().with_bytes(bytes)
}

// Of all records of a field, by place.
pub(crate) fn of_tags<F: Lending>(field: &F) -> Fingerprint
    ensures fingerprint { result ≡ tags_fingerprint (F.tags field.now) }
{
    let mut fingerprint = Fingerprint::new();
    for place in 0..field.places() {
        if let Some(tag) = field.tag(place) {
            fingerprint = fingerprint.with_tag(tag);
        }
    }
    fingerprint
}
