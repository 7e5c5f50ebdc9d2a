// A kind of field that counts what is sent to it.
ghost use Rattle.std.specs.Prelude.{◌≡◌};
ghost use Rattle.field.specs.Sends.{IfHeard};
ghost use Rattle.first_field.specs.Counting.{field_of, sends_of, HandsOn};

use field::field::Field;
use field::hearing::Hearing;
use protocol::refusal::Refusal;

/// A layer over a field of any kind: it hands on what it is sent, and counts it.
#[derive(Drop)]
pub struct Counted<F> {
    field: F,
    sends: u64,
}

impl<F: Field> Counted<F> {
    /// The field, with nothing counted yet.
    pub fn new(field: F) -> Counted<F>
        ensures field { field_of result ≡ field }
        ensures sends { sends_of result ≡ 0 }
    {
        Counted { field, sends: 0 }
    }

    /// How many sends it has handed on. The greatest number that fits stands for all above it too.
    pub fn sends(&self) -> u64
        ensures { result ≡ sends_of self.now }
    {
        self.sends
    }

    /// Gives the field back.
    pub fn into_inner(self) -> F
        ensures { result ≡ field_of self }
    {
        let Counted { field, .. } = self;
        field
    }
}

impl<F: Field> Field for Counted<F> {
    ghost tags = { λ c. F.tags (field_of c) };

    ghost few = { λ c. F.few (field_of c) };

    ghost sized = { λ c. F.sized (field_of c) };

    ghost faithful = { λ c. F.faithful (field_of c) };

    ghost hears = { λ c bytes row answer d. IfHeard answer (HandsOn F.Field bytes row c d) c d };

    ghost passes = { λ c us d. F.passes (field_of c) us (field_of d) × (sends_of d ≡ sends_of c) };

    fn places(&self) -> usize {
        self.field.places()
    }

    fn pass(&mut self, microseconds: u32) {
        self.field.pass(microseconds);
    }

    // A send that is refused changes nothing, so it is not counted.
    fn send(&mut self, bytes: &[u8], row: u64, buffer: &mut [u8]) -> Result<Hearing, Refusal> {
        let Counted { field, sends } = self;
        let heard = field.send(bytes, row, buffer)?;
        *sends = sends.saturating_add(1);
        Ok(heard)
    }
}
