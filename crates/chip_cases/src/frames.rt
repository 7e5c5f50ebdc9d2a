// The questions about frames.
use crc::check_value;
use frame::making::make;
use frame::opening::{Frame, open};
use notation::error::NotationError;
use notation::hexadecimal::{Hex, read_byte, read_bytes};
use notation::words::{no_word, word};
use protocol::command::PARAMETERS;
use std::alloc::{AllocError, Global};
use std::str::SplitWhitespace;
use std::{fmt, iter};

// The code of a frame, and each parameter with its offset and its length.
#[derive(Drop)]
struct Opened<'a> {
    frame: Frame<'a>,
}

impl fmt::Display for Opened<'_> {
    fn fmt<W: fmt::Write>(&self, f: &mut fmt::Formatter<W>) -> fmt::Result {
        write!(f, "opened {:02X}", self.frame.code())?;
        for parameter in PARAMETERS {
            if let Some(span) = self.frame.request().span(parameter) {
                write!(f, " {parameter}@{}+{}", span.offset, span.length)?;
            }
        }
        Ok(())
    }
}

// A buffer of some length, filled so that a byte that should stay tells whether it did.
fn filled(heap: Global, room: usize) -> Result<Vec<u8>, AllocError> {
    iter::successors(Some(165u8), |byte| Some(byte.wrapping_add(7)))
        .take(room)
        .collect(heap)
}

pub(crate) fn answer_check(rt: &HostRuntime, words: SplitWhitespace<'_>) -> anyhow::Result<()> {
    let message = read_bytes(rt.alloc(), only_word(words)?)?;
    println!(rt; "{:04X}", check_value(message.as_slice()))?;
    Ok(())
}

pub(crate) fn answer_open(rt: &HostRuntime, words: SplitWhitespace<'_>) -> anyhow::Result<()> {
    let question = read_bytes(rt.alloc(), only_word(words)?)?;
    match open(question.as_slice()) {
        Ok(frame) => println!(rt; "{}", Opened { frame })?,
        Err(refusal) => println!(rt; "refused {}", refusal.number())?,
    }
    Ok(())
}

fn only_word<'a>(mut words: SplitWhitespace<'a>) -> Result<&'a str, NotationError> {
    let only = word(words.next())?;
    no_word(words.next())?;
    Ok(only)
}

pub(crate) fn answer_make(rt: &HostRuntime, mut words: SplitWhitespace<'_>) -> anyhow::Result<()> {
    let code = read_byte(word(words.next())?)?;
    let parameters = read_bytes(rt.alloc(), word(words.next())?)?;
    let room = word(words.next())?.parse::<usize>()?;
    no_word(words.next())?;
    let mut buffer = filled(rt.alloc(), room)?;
    let made = make(code, parameters.as_slice(), buffer.as_mut_slice());
    let after = Hex::new(buffer.as_slice());
    match made {
        Ok(length) => println!(rt; "made {length} {after}")?,
        Err(refusal) => println!(rt; "refused {} {after}", refusal.number())?,
    }
    Ok(())
}
