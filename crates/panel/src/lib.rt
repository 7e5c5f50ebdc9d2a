// What the generator's panel, which is C, calls: the check value, and the opening of a frame.
#![tactic(auto)]

ghost use Rattle.std.specs.Prelude.{◌≡◌, length, MatchResult, OnOk};
ghost use Rattle.std.proofs.Props.{props};
ghost use Rattle.crc.specs.Check.{check_value};
ghost use Rattle.frame.specs.Openings.{opening, code_of_frame, request_of_frame};
ghost use Rattle.frame.specs.Parts.{span_of};
ghost use Rattle.frame.specs.Requests.{parts_of};
ghost use Rattle.protocol.specs.Refusals.{number_of};
ghost use Rattle.panel.specs.Shown.{Small, Selects, offset_in, length_in, shown_of, status_of, shown_after};

mod worked;

use crc::check_value;
use frame::opening::{Frame, open};
use protocol::command::Parameter;
use protocol::refusal::Refusal;

// How many bytes tell what a frame holds: its code, then offset and length of each of the seven parameters.
const SHOWN: usize = 15;

/// The check value of a message.
#[unsafe(no_mangle)]
pub extern "C" fn nolbashi_check_value(message: &[u8]) -> u16
    ensures { result ≡ check_value message.now }
{
    check_value(message)
}

/// Opens a frame, and shows its code and its parameters in the first bytes of `shown`. Answers 0, or the number of the
/// refusal, and then nothing is changed. docs/panel.md has the places, and what a C caller must keep to.
#[unsafe(no_mangle)]
pub extern "C" fn nolbashi_open(frame: &[u8], shown: &mut [u8]) -> u8
    ensures answer { result ≡ status_of (opening frame.now) (length shown.old) }
    ensures shown { shown.new ≡ shown_after (opening frame.now) shown.old }
    ensures selects { result ≡ 0 → Selects shown.new frame.now }
{
    // A number, and a frame beside a buffer, since that is what C has.
    show(frame, shown).err().map_or(0, Refusal::number)
}

// Shows what a frame holds, or tells why not. Frame and buffer are two parameters as in C.
fn show(frame: &[u8], shown: &mut [u8]) -> Result<(), Refusal>
    ensures answer { MatchResult result
        (λ _. status_of (opening frame.now) (length shown.old) ≡ 0)
        (λ e. status_of (opening frame.now) (length shown.old) ≡ number_of e) }
    ensures shown { shown.new ≡ shown_after (opening frame.now) shown.old }
    ensures selects { OnOk result (Selects shown.new frame.now) }
{
    let opened = Shown {
        frame: open(frame)?,
    };
    if shown.len() < SHOWN {
        return Err(Refusal::Buffer);
    }
    shown[..SHOWN].copy_from_slice(&opened.bytes());
    Ok(())
}

// A frame whose parameters can be shown, since two bytes are enough for where each lies.
#[derive(Clone, Copy)]
struct Shown<'a> {
    frame: Frame<'a>,
    ghost small: { Small (parts_of (request_of_frame frame)) } by { Prim.hlevel props },
}

impl Shown<'_> {
    // The code, then each parameter's offset and length. They are written out, since so the list is proved with nothing
    // to say of a loop, and reads as the header does.
    fn bytes(&self) -> [u8; SHOWN]
        ensures { result ≡ shown_of (code_of_frame self.now.frame) (parts_of (request_of_frame self.now.frame)) }
    {
        let (serial, serial_length) = self.pair(Parameter::Serial);
        let (address, address_length) = self.pair(Parameter::Address);
        let (mask, mask_length) = self.pair(Parameter::Mask);
        let (word, word_length) = self.pair(Parameter::Word);
        let (block, block_length) = self.pair(Parameter::Data);
        let (length, length_length) = self.pair(Parameter::Length);
        let (ignored, ignored_length) = self.pair(Parameter::Ignored);
        [
            self.frame.code(),
            serial,
            serial_length,
            address,
            address_length,
            mask,
            mask_length,
            word,
            word_length,
            block,
            block_length,
            length,
            length_length,
            ignored,
            ignored_length,
        ]
    }

    // Offset and length of a parameter, and zeros where the frame has none, as the header has it.
    fn pair(&self, parameter: Parameter) -> (u8, u8)
        ensures offset { result.0 ≡ offset_in (span_of parameter (parts_of (request_of_frame self.now.frame))) }
        ensures length { result.1 ≡ length_in (span_of parameter (parts_of (request_of_frame self.now.frame))) }
    {
        match self.frame.request().span(parameter) {
            Some(span) => (span.offset as u8, span.length as u8),
            None => (0, 0),
        }
    }
}
