// Opening a frame: what it asks, and where each parameter lies in the caller's bytes.
ghost use Rattle.std.specs.Prelude.{◌≡◌, ◌≤◌, length, IsTrue, IfOk, IfErr, OnOk, slice_index};
ghost use Rattle.frame.specs.Cases.{DamagedFrames};
ghost use Rattle.frame.specs.Makings.{making, made, longest_frame};
ghost use Rattle.frame.specs.Openings.{refused, opening, is_sealed, parameters_of};
ghost use Rattle.frame.specs.Openings.{opening_of, bytes_of_frame, code_of_frame, request_of_frame};
ghost use Rattle.frame.specs.Parts.{bytes_in, Within};
ghost use Rattle.frame.specs.Requests.{parts_of};
ghost use Rattle.protocol.specs.Refusals.{number_of};

use crate::request::Request;
use crc::Register;
use protocol::command::Entry;
use protocol::refusal::Refusal;

/// A frame that opened: the caller's bytes, their code and their request.
#[derive(Clone, Copy)]
pub struct Frame<'a> {
    bytes: &'a [u8],
    code: u8,
    request: Request<'a>,
}

/// Opens a frame, or tells why not. Each parameter lies in the bytes at its offset, and the bytes are the one frame
/// that making gives for that code and those parameters. The refusals, 1 to 4, and their order are in docs/frames.md.
#[tactic(auto, using(crate::proofs::Limits::damaged_frames))]
pub fn open(bytes: &[u8]) -> Result<Frame<'_>, Refusal>
    ensures seen { opening_of result ≡ opening bytes.now }
    ensures bytes { IfOk result (λ f. bytes_of_frame f ≡ bytes.now) }
    ensures within { IfOk result (λ f. Within bytes.now (parts_of (request_of_frame f))) }
    ensures remade { IfOk result (λ f.
        making (code_of_frame f) (bytes_in (parts_of (request_of_frame f))) (length bytes.now) ≡ made bytes.now) }
    ensures longest { OnOk result (length bytes.now ≤ longest_frame) }
    ensures damaged { DamagedFrames }
{
    Sealed::of(bytes)?.frame()
}

impl<'a> Frame<'a> {
    /// The bytes that it was opened from.
    pub fn bytes(&self) -> &'a [u8]
        ensures { result.now ≡ bytes_of_frame self.now }
    {
        self.bytes
    }

    /// The code, its first byte.
    pub fn code(&self) -> u8
        ensures { result ≡ code_of_frame self.now }
    {
        self.code
    }

    /// The command with its parameters.
    pub fn request(&self) -> Request<'a>
        ensures { result ≡ request_of_frame self.now }
    {
        self.request
    }
}

// Bytes whose last two are the check value of those before them: a frame, if its code and its length are the table's.
#[derive(Clone, Copy)]
struct Sealed<'a> {
    bytes: &'a [u8],
    code: u8,
    parameters: &'a [u8],
    ghost long: { 3 ≤ length bytes.now },
    ghost right: { IsTrue (is_sealed bytes.now) },
    ghost first: { code ≡ slice_index bytes.now 0 },
    ghost between: { parameters.now ≡ parameters_of bytes.now },
}

impl<'a> Sealed<'a> {
    fn of(bytes: &'a [u8]) -> Result<Sealed<'a>, Refusal>
        ensures bytes { IfOk result (λ s. s.bytes.now ≡ bytes.now) }
        ensures refusal { IfErr result (λ e. opening bytes.now ≡ refused (number_of e)) }
    {
        let (code, parameters) = unsealed(bytes)?;
        Ok(Sealed {
            bytes,
            code,
            parameters,
        })
    }

    // The frame, by the table: or no command has the code, or none of that length.
    fn frame(&self) -> Result<Frame<'a>, Refusal>
        ensures seen { opening_of result ≡ opening self.now.bytes.now }
        ensures bytes { IfOk result (λ f. bytes_of_frame f ≡ self.now.bytes.now) }
        ensures within { IfOk result (λ f. Within self.now.bytes.now (parts_of (request_of_frame f))) }
        ensures remade { IfOk result (λ f. making (code_of_frame f) (bytes_in (parts_of (request_of_frame f)))
            (length self.now.bytes.now) ≡ made self.now.bytes.now) }
        ensures longest { OnOk result (length self.now.bytes.now ≤ longest_frame) }
    {
        let entry = Entry::try_from(self.code)?;
        if self.bytes.len() != entry.length {
            return Err(Refusal::Length);
        }
        Ok(Frame {
            bytes: self.bytes,
            code: entry.code,
            request: Request::of(entry.command, self.parameters),
        })
    }
}

// The code and the parameters of bytes whose check value is right.
fn unsealed(bytes: &[u8]) -> Result<(u8, &[u8]), Refusal>
    ensures long { OnOk result (3 ≤ length bytes.now) }
    ensures right { OnOk result (IsTrue (is_sealed bytes.now)) }
    ensures first { IfOk result (λ p. p.0 ≡ slice_index bytes.now 0) }
    ensures between { IfOk result (λ p. p.1.now ≡ parameters_of bytes.now) }
    ensures refusal { IfErr result (λ e. opening bytes.now ≡ refused (number_of e)) }
{
    let [code, parameters @ .., high, low] = bytes else {
        return Err(Refusal::Stub);
    };
    let mut register = Register::preset();
    register.take_byte(*code);
    register.take(parameters);
    if register.check_value() != u16::from_be_bytes([*high, *low]) {
        return Err(Refusal::Check);
    }
    Ok((*code, parameters))
}
