// A field that is asked, question after question.
ghost use Rattle.std.specs.Prelude.{◌≡◌, ◌≤◌, ◌++◌, take, drop, replicate, if◌then◌else◌, Some, None, IfOk, OnErr};
ghost use Rattle.protocol.specs.Refusals.{refusal_in};
ghost use Rattle.frame.specs.Openings.{opening};
ghost use Rattle.field.specs.Airs.{MayHear};
ghost use Rattle.field.specs.Sends.{on_air, is_short, tags_after_send, buffer_after_send, after_gap_all};
ghost use Rattle.field_cases.specs.Fingerprints.{tags_fingerprint};
ghost use Rattle.field_cases.specs.Questions.{SpellsSending};

use crate::reading::{read_row, split_word};
use crate::showing::{Fingerprint, of_bytes, of_tags, without_end};
use anyhow::ensure;
use field::field::ROOM;
use field::hearing::Hearing;
use field::lending::Lending;
use notation::hexadecimal::{Hex, read_bytes};
use protocol::refusal::Refusal;
use std::alloc::Global;
use std::fmt;

/// How long the buffer of a case is, and what it holds at first.
pub const BUFFER: usize = 300;

const FILLING: u8 = 0xa5;

/// What is sent.
#[derive(Drop)]
pub struct SendQuestion {
    pub row: u64,
    /// How much of the buffer is lent.
    pub room: usize,
    pub frame: Vec<u8>,
    ghost inside: { room ≤ 300 },
}

impl SendQuestion {
    // By three words, ROW ROOM FRAME.
    pub(crate) fn read(heap: Global, text: &str) -> anyhow::Result<SendQuestion>
        ensures ok { IfOk result (λ s. SpellsSending text.now s.row s.room s.frame.items) }
    {
        let (row, rest) = split_word(text)?;
        let (room, frame) = split_word(rest)?;
        ensure!(!frame.is_empty(), "a word is missing");
        let row = read_row(row)?;
        let room = room.parse::<usize>()?;
        ensure!(room <= BUFFER, "more room than the buffer has");
        let frame = read_bytes(heap, frame)?;
        Ok(SendQuestion { row, room, frame })
    }
}

/// A field, and the buffer for its replies.
#[derive(Drop)]
pub struct AskedField<F> {
    pub field: F,
    pub buffer: [u8; BUFFER],
}

impl<F: Lending> AskedField<F> {
    pub(crate) fn new(field: F) -> AskedField<F>
        ensures field { result.field ≡ field }
        ensures buffer { result.buffer ≡ replicate 300 0xa5 }
    {
        AskedField {
            field,
            buffer: [FILLING; BUFFER],
        }
    }

    pub(crate) fn send(&mut self, sending: &SendQuestion) -> SendAnswer
        ensures refusal { refusal_in result.heard ≡ (if is_short sending.now.room then Some 5 else None) }
        ensures tags { F.tags self.new.field
            ≡ tags_after_send sending.now.room sending.now.frame.items sending.now.row (F.tags self.old.field) }
        ensures hearing { IfOk result.heard
            (λ h. MayHear (on_air (opening sending.now.frame.items) sending.now.row (F.tags self.old.field)) h) }
        ensures buffer { self.new.buffer
            ≡ buffer_after_send result.heard
            (on_air (opening sending.now.frame.items) sending.now.row (F.tags self.old.field))
            (take sending.now.room self.old.buffer)
            ++ drop sending.now.room self.old.buffer }
        ensures shown { (result.buffer ≡ self.new.buffer) × (result.tags ≡ tags_fingerprint (F.tags self.new.field)) }
        ensures same { OnErr result.heard (self.new ≡ self.old) }
    {
        // A copy is lent, since a part of the buffer beside the field gets no proof.
        let mut buffer = self.buffer;
        let lent = &mut buffer[..sending.room];
        let heard = self.field.send(sending.frame.as_slice(), sending.row, lent);
        self.buffer = buffer;
        SendAnswer {
            heard,
            buffer,
            tags: of_tags(&self.field),
        }
    }

    // Lets so many microseconds pass, and tells the tags after that.
    pub(crate) fn pass(&mut self, microseconds: u32) -> Fingerprint
        ensures tags { F.tags self.new.field ≡ after_gap_all microseconds (F.tags self.old.field) }
        ensures buffer { self.new.buffer ≡ self.old.buffer }
        ensures shown { result ≡ tags_fingerprint (F.tags self.new.field) }
    {
        self.field.pass(microseconds);
        of_tags(&self.field)
    }
}

/// What came of a send.
#[derive(Drop)]
pub struct SendAnswer {
    pub heard: Result<Hearing, Refusal>,
    pub buffer: [u8; BUFFER],
    pub tags: Fingerprint,
}

impl fmt::Display for SendAnswer {
    fn fmt<W: fmt::Write>(&self, f: &mut fmt::Formatter<W>) -> fmt::Result {
        match self.heard {
            Ok(hearing) => {
                let reply = Hex::new(without_end(&self.buffer[..ROOM]));
                write!(f, "{hearing} {reply}")?;
            }
            Err(refusal) => write!(f, "refused-{} -", refusal.number())?,
        }
        write!(f, " {} {}", of_bytes(&self.buffer), self.tags)
    }
}
