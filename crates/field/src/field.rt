// The trait of all fields.
ghost use Rattle.std.specs.Prelude.{◌≡◌, ℕ, ◌≤◌, if◌then◌else◌, Bool, List, length, Some, None, Result};
ghost use Rattle.std.specs.Prelude.{IsTrue, IfOk, OnErr, OnOk};
ghost use Rattle.protocol.specs.declared.refusal.Refusal.{Refusal};
ghost use Rattle.protocol.specs.Refusals.{refusal_in};
ghost use Rattle.frame.specs.Openings.{opening};
ghost use Rattle.record.specs.declared.Tag.{Tag};
ghost use Rattle.record.specs.Gaps.{after_gap};
ghost use Rattle.tag.specs.Steps.{stepped};
ghost use Rattle.field.specs.declared.hearing.Hearing.{Hearing};
ghost use Rattle.field.specs.Airs.{MayHear, plain_hearing};
ghost use Rattle.field.specs.Sends.{coin_at, on_air, after_gap_all, is_short, tags_after_send, buffer_after_send};
ghost use Rattle.field.specs.Sends.{InPlace, Sized};

use crate::hearing::Hearing;
use protocol::refusal::Refusal;
use reply::LONGEST_REPLY;

/// The most places that a field has.
pub const PLACES: usize = 64;

/// How many bytes a send writes into its reply buffer: as many as the longest reply has.
pub const ROOM: usize = LONGEST_REPLY;

/// A field is anything that answers a reader. It means a list of tags; a tag's place is its position, from 0.
/// docs/fields.md has the rules, docs/library.md a kind of one's own.
pub trait Field {
    // The tags that the field means.
    ghost tags: { Self → List Tag };

    // There are at most 64.
    ghost few: { (f : Self) → length (tags f) ≤ 64 };

    // Each has its 56 bytes.
    ghost sized: { (f : Self) → Sized (tags f) };

    // Whether the field hears every lone reply as lone.
    ghost faithful: { Self → Bool };

    // What this kind promises of a send beside what all do: the field before, the frame's bytes, the row, what is
    // answered, and the field after.
    ghost hears: { Self → List ℕ → ℕ → Result Hearing Refusal → Self → Type 0 };

    // What it promises of a gap: the field before, the microseconds, and the field after.
    ghost passes: { Self → ℕ → Self → Type 0 };

    /// How many places there are.
    fn places(&self) -> usize
        ensures { result ≡ length (tags self.now) };

    /// Lets so many microseconds pass.
    fn pass(&mut self, microseconds: u32)
        ensures tags { tags self.new ≡ after_gap_all microseconds (tags self.old) }
        ensures places { InPlace (λ _. after_gap microseconds) (tags self.old) (tags self.new) }
        ensures as_faithful { faithful self.new ≡ faithful self.old }
        ensures kind { passes self.old microseconds self.new };

    /// Sends a frame, any bytes, with a row of coins: the tag at place i takes bit i. What is heard of it stands in the
    /// buffer after that: a lone reply followed by 00, otherwise 00 alone.
    fn send(&mut self, bytes: &[u8], row: u64, buffer: &mut [u8]) -> Result<Hearing, Refusal>
        ensures refusal { refusal_in result ≡ (if is_short (length buffer.old) then Some 5 else None) }
        ensures tags { tags self.new ≡ tags_after_send (length buffer.old) bytes.now row (tags self.old) }
        ensures hearing { IfOk result (λ h. MayHear (on_air (opening bytes.now) row (tags self.old)) h) }
        ensures faithful { IfOk result
            (λ h. IsTrue (faithful self.old) → h ≡ plain_hearing (on_air (opening bytes.now) row (tags self.old))) }
        ensures as_faithful { faithful self.new ≡ faithful self.old }
        ensures buffer { buffer.new
            ≡ buffer_after_send result (on_air (opening bytes.now) row (tags self.old)) buffer.old }
        ensures places { OnOk result
            (InPlace (λ place. stepped (opening bytes.now) (coin_at row place)) (tags self.old) (tags self.new)) }
        ensures kind { hears self.old bytes.now row result self.new }
        ensures same { OnErr result (self.new ≡ self.old) };
}
