// What a field hears, and what becomes of its tags.
use field::field::{Field, ROOM};
use field::hearing::Hearing;
use notation::hexadecimal::Hex;
use protocol::refusal::Refusal;
use std::fmt;

// How long each lone reply is here: eight bytes and a check value.
const REPLY: usize = 10;

#[derive(Clone, Copy)]
pub(crate) struct Heard {
    hearing: Hearing,
    reply: [u8; REPLY],
}

impl fmt::Display for Heard {
    fn fmt<W: fmt::Write>(&self, f: &mut fmt::Formatter<W>) -> fmt::Result {
        match self.hearing {
            Hearing::Lone => write!(f, "{:<8} {}", self.hearing, Hex::spaced(&self.reply)),
            hearing => write!(f, "{hearing}"),
        }
    }
}

// Sends a frame.
pub(crate) fn hear<F: Field>(field: &mut F, frame: &[u8], row: u64) -> Result<Heard, Refusal> {
    let mut buffer = [0; ROOM];
    let hearing = field.send(frame, row, &mut buffer)?;
    let mut reply = [0; REPLY];
    reply.copy_from_slice(&buffer[..REPLY]);
    Ok(Heard { hearing, reply })
}
