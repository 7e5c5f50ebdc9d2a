// Two fields of any kinds, as one.
ghost use Rattle.std.specs.Prelude.{◌≡◌, ◌≤◌, ◌&&◌, length, IfOk, IfErr, if◌then◌else◌, Some, None};
ghost use Rattle.field.specs.Declining.{declined_by};
ghost use Rattle.frame.specs.Openings.{opening};
ghost use Rattle.field.specs.Promises.{AfterSend};
ghost use Rattle.field.specs.Sends.{row_behind, on_air, IfHeard};
ghost use Rattle.field.proofs.Joins.{few_both, sized_both};
ghost use Rattle.reply.specs.Replies.{longest_reply};
ghost use Rattle.composite_fields.specs.Pairs.{left_of, right_of, fits, paired, beside, HeardOfBoth, ActsOnParts};

use field::buffer::clear;
use field::declined::Declined;
use field::field::{Field, PLACES, ROOM};
use field::hearing::Hearing;
use field::lending::Lending;
use protocol::refusal::Refusal;
use record::Tag;

/// The places of the left field come first. A pair above 64 places, which is never made, means its left alone: by the
/// rule that no type asks more than it did, since a type that ruled this out would ask that its sides be fields.
#[derive(Drop)]
pub struct Pair<L, R> {
    left: L,
    right: R,
}

impl<L: Field, R: Field> Pair<L, R> {
    /// Both fields as one, or both back if they have more than 64 places.
    #[tactic(auto, using(crate::proofs::Joining::splits))]
    pub fn new(left: L, right: R) -> Result<Pair<L, R>, Declined<(L, R)>>
        ensures refusal { declined_by result
            ≡ (if fits (L.Field.tags left) (R.Field.tags right) then None else Some 6) }
        ensures parts { IfOk result (λ p. (left_of p ≡ left) × (right_of p ≡ right)) }
        ensures back { IfErr result (λ e. e.given ≡ (left, right)) }
        ensures split { ActsOnParts (L.Field.tags left) (R.Field.tags right) }
    {
        if left.places() + right.places() > PLACES {
            return Err(Declined {
                refusal: Refusal::Crowd,
                given: (left, right),
            });
        }
        Ok(Pair { left, right })
    }
}

impl<L, R> Pair<L, R> {
    /// Gives both fields back.
    pub fn into_parts(self) -> (L, R)
        ensures { result ≡ (left_of self, right_of self) }
    {
        let Pair { left, right } = self;
        (left, right)
    }
}

impl<L: Field, R: Field> Field for Pair<L, R> {
    ghost tags = { λ p. paired (L.Field.tags (left_of p)) (R.Field.tags (right_of p)) };

    ghost few = { λ p. few_both (L.Field.tags p.left) (R.Field.tags p.right) (L.Field.few p.left) };

    ghost sized = { λ p. sized_both (L.Field.tags p.left) (R.Field.tags p.right)
        (L.Field.sized p.left) (R.Field.sized p.right) };

    // It hears every lone reply as lone if both sides do.
    ghost faithful = { λ p. L.Field.faithful (left_of p) && R.Field.faithful (right_of p) };

    ghost hears = { λ p bytes row answer q. IfHeard answer (HeardOfBoth L.Field R.Field bytes row p q) p q };

    ghost passes = { λ p us q. L.Field.passes (left_of p) us (left_of q)
        × R.Field.passes (right_of p) us (right_of q) };

    fn places(&self) -> usize {
        let left = self.left.places();
        let right = self.right.places();
        if left + right > PLACES {
            left
        } else {
            left + right
        }
    }

    fn pass(&mut self, microseconds: u32) {
        self.left.pass(microseconds);
        self.right.pass(microseconds);
    }

    fn send(&mut self, bytes: &[u8], row: u64, buffer: &mut [u8]) -> Result<Hearing, Refusal> {
        let left = self.left.places();
        let right = self.right.places();
        let heard = self.left.send(bytes, row, buffer)?;
        if left + right > PLACES {
            return Ok(heard);
        }
        let other = send_beside(&mut self.right, bytes, row_behind(left, row), heard, buffer);
        Ok(heard.with(other))
    }
}

impl<L: Lending, R: Lending> Lending for Pair<L, R> {
    fn tag(&self, place: usize) -> Option<&Tag> {
        let left = self.left.places();
        if place < left || left + self.right.places() > PLACES {
            return self.left.tag(place);
        }
        self.right.tag(place - left)
    }
}

// The coins for what stands behind some places.
fn row_behind(places: usize, row: u64) -> u64
    ensures { result ≡ row_behind places row }
{
    if places < 64 { row >> places } else { 0 }
}

// Sends to the right, beside what the left is heard as, whose reply stands in the buffer. Beside silence the right's
// own reply may stand there; otherwise it has a buffer of its own. Neither is ever refused.
#[tactic(auto, using(crate::proofs::Besides::heard_sent, crate::proofs::Besides::heard_left))]
fn send_beside<R: Field>(
    right: &mut R,
    bytes: &[u8],
    row: u64,
    left: Hearing,
    buffer: &mut [u8],
) -> Hearing
    requires { longest_reply ≤ length buffer.old }
    ensures sent { AfterSend R.Field bytes.now row result right.old right.new }
    ensures buffer { buffer.new
        ≡ beside left result (on_air (opening bytes.now) row (R.tags right.old)) buffer.old }
{
    if left == Hearing::Silence {
        return right.send(bytes, row, buffer).unwrap_or(Hearing::Silence);
    }
    let mut scratch = [0; ROOM];
    let heard = right
        .send(bytes, row, &mut scratch)
        .unwrap_or(Hearing::Silence);
    if heard != Hearing::Silence {
        clear(buffer);
    }
    heard
}
