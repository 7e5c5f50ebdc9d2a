// What a spoiler does.
ghost use Rattle.std.specs.Prelude.{◌≡◌, ℕ, ◌+◌, ◌%◌, ◌<◌, false, IfOk, IfErr, if◌then◌else◌, Some, None, nat_eq};
ghost use Rattle.field.specs.Declining.{declined_by};
ghost use Rattle.field.specs.Sends.{IfHeard};
ghost use Rattle.composite_fields.specs.Spoilers.{field_of, period_of, count_of, Spoils};

use crate::spoiler::Spoiler;
use field::buffer::clear;
use field::declined::Declined;
use field::field::Field;
use field::hearing::Hearing;
use field::lending::Lending;
use protocol::refusal::Refusal;
use record::Tag;

impl<F> Spoiler<F> {
    /// A spoiler over a field, or the field back if the period is 0.
    pub fn new(field: F, period: u16) -> Result<Spoiler<F>, Declined<F>>
        ensures refusal { declined_by result ≡ (if nat_eq period 0 then Some 11 else None) }
        ensures made { IfOk result
            (λ s. (field_of s ≡ field) × (period_of s ≡ period) × (count_of s ≡ 0)) }
        ensures back { IfErr result (λ e. e.given ≡ field) }
    {
        if period == 0 {
            return Err(Declined {
                refusal: Refusal::Period,
                given: field,
            });
        }
        Ok(Spoiler {
            field,
            period,
            heard: 0,
        })
    }

    // The count after one more lone reply: it begins anew with one that is to be spoiled.
    fn counted(&self) -> u16
        ensures inside { result < self.now.period }
        ensures next { (n : ℕ) → self.now.heard ≡ n % self.now.period → result ≡ (n + 1) % self.now.period }
    {
        let period = self.period;
        let next = self.heard + 1;
        if next < period { next } else { 0 }
    }

    /// Gives the field back.
    pub fn into_inner(self) -> F
        ensures { result ≡ field_of self }
    {
        let Spoiler { field, .. } = self;
        field
    }
}

impl<F: Field> Field for Spoiler<F> {
    ghost tags = { λ s. F.Field.tags (field_of s) };

    ghost few = { λ s. F.Field.few s.field };

    ghost sized = { λ s. F.Field.sized s.field };

    ghost faithful = { λ _. false };

    ghost hears = { λ s bytes row answer t. IfHeard answer (Spoils F.Field bytes row s t) s t };

    ghost passes = { λ s us t. F.Field.passes (field_of s) us (field_of t)
        × (count_of t ≡ count_of s) × (period_of t ≡ period_of s) };

    fn places(&self) -> usize {
        self.field.places()
    }

    fn pass(&mut self, microseconds: u32) {
        self.field.pass(microseconds);
    }

    #[tactic(auto, using(field::proofs::Buffers::cleared_again, field::proofs::Buffers::room_of))]
    fn send(&mut self, bytes: &[u8], row: u64, buffer: &mut [u8]) -> Result<Hearing, Refusal> {
        let heard = self.field.send(bytes, row, buffer)?;
        let Hearing::Lone = heard else {
            return Ok(heard);
        };
        self.heard = self.counted();
        if self.heard == 0 {
            clear(buffer);
            return Ok(Hearing::Clash);
        }
        Ok(heard)
    }
}

impl<F: Lending> Lending for Spoiler<F> {
    fn tag(&self, place: usize) -> Option<&Tag> {
        self.field.tag(place)
    }
}
