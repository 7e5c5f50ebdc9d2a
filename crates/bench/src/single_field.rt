// What a single does.
ghost use Rattle.std.specs.Prelude.{◌≡◌, true, [], ◌∷◌};
ghost use Rattle.frame.specs.Openings.{opening};
ghost use Rattle.field.specs.Airs.{plain_hearing};
ghost use Rattle.field.specs.Sends.{on_air, IfHeard};
ghost use Rattle.bench.specs.Benches.{tag_of, tags_of};
ghost use Rattle.field.proofs.Sizes.{single_few, single_sized};

use crate::measuring::measure_tag;
use crate::single::Single;
use crate::table_walk::send_all;
use field::field::{Field, ROOM};
use field::hearing::Hearing;
use field::lending::Lending;
use protocol::refusal::Refusal;
use record::Tag;
use std::slice;

impl Single {
    /// A single of a tag, which stands at place 0.
    pub fn new(tag: Tag) -> Single
        ensures tag { tag_of result ≡ tag }
        ensures tags { tags_of result ≡ tag ∷ [] }
    {
        measure_tag(&tag);
        Single { tag }
    }

    /// Gives the tag back.
    pub fn into_inner(self) -> Tag
        ensures tag { result ≡ tag_of self }
        ensures tags { tags_of self ≡ result ∷ [] }
    {
        self.tag
    }
}

impl Field for Single {
    ghost tags = { tags_of };

    ghost few = { λ s. single_few (tag_of s) };

    ghost sized = { λ s. single_sized (tag_of s) };

    ghost faithful = { λ _. true };

    // It hears every lone reply as lone.
    ghost hears = { λ s bytes row answer t. IfHeard answer
        (λ h. h ≡ plain_hearing (on_air (opening bytes) row (tags_of s))) s t };

    ghost passes = { λ _ _ _. Unit {0} };

    fn places(&self) -> usize {
        measure_tag(&self.tag);
        1
    }

    fn pass(&mut self, microseconds: u32) {
        self.tag.pass(microseconds);
    }

    fn send(&mut self, bytes: &[u8], row: u64, buffer: &mut [u8]) -> Result<Hearing, Refusal> {
        if buffer.len() < ROOM {
            return Err(Refusal::Buffer);
        }
        measure_tag(&self.tag);
        Ok(send_all(slice::from_mut(&mut self.tag), bytes, row, buffer))
    }
}

impl Lending for Single {
    fn tag(&self, place: usize) -> Option<&Tag> {
        measure_tag(&self.tag);
        if place == 0 { Some(&self.tag) } else { None }
    }
}
