// Making a frame at the front of a lent buffer.
ghost use Rattle.std.specs.Prelude.{◌≡◌, ℕ, ◌+◌, ◌≤◌, length, take, IfOk, IfErr};
ghost use Rattle.frame.specs.Cases.{BareFrames};
ghost use Rattle.frame.specs.Makings.{making, unmade, result_of, buffer_after, OpensAs};
ghost use Rattle.protocol.specs.Commands.{code_of, length_of};
ghost use Rattle.protocol.specs.Refusals.{write_result, number_of};

use crate::writer::Writer;
use protocol::command::{Command, Entry};
use protocol::refusal::Refusal;

/// How many bytes the longest frame has.
pub const LONGEST_FRAME: usize = 17;

/// Makes the frame of a code with its parameters, and tells its length. It opens as that code with those parameters.
/// Callers give the two as they have them, which may be no frame's; a `Draft` is made of those that are.
/// The refusals, 3 to 5, and their order are in docs/frames.md.
#[tactic(auto, using(crate::proofs::Limits::bare_frames))]
pub fn make(code: u8, parameters: &[u8], buffer: &mut [u8]) -> Result<usize, Refusal>
    ensures answer { write_result result ≡ result_of (making code parameters.now (length buffer.old)) }
    ensures buffer { buffer.new ≡ buffer_after (making code parameters.now (length buffer.old)) buffer.old }
    ensures opens { IfOk result (λ n. OpensAs code parameters.now (take n buffer.new)) }
    ensures bare { BareFrames }
{
    Draft::of(code, parameters)?.write(buffer)
}

// A command, and parameters that have its length: a frame, as soon as it has room.
#[derive(Clone, Copy)]
struct Draft<'a> {
    command: Command,
    parameters: &'a [u8],
    ghost whole: { length parameters.now + 3 ≡ length_of command },
}

impl<'a> Draft<'a> {
    fn of(code: u8, parameters: &'a [u8]) -> Result<Draft<'a>, Refusal>
        ensures code { IfOk result (λ d. code_of d.command ≡ code) }
        ensures parameters { IfOk result (λ d. d.parameters.now ≡ parameters.now) }
        ensures refusal { IfErr result (λ e. (room : ℕ) → making code parameters.now room ≡ unmade (number_of e)) }
    {
        let entry = Entry::try_from(code)?;
        if parameters.len() != entry.length - 3 {
            return Err(Refusal::Length);
        }
        Ok(Draft {
            command: entry.command,
            parameters,
        })
    }

    #[tactic(auto, using(crate::proofs::Makes::short_of_room))]
    fn write(&self, buffer: &mut [u8]) -> Result<usize, Refusal>
        ensures answer { write_result result
            ≡ result_of (making (code_of self.now.command) self.now.parameters.now (length buffer.old)) }
        ensures buffer { buffer.new
            ≡ buffer_after (making (code_of self.now.command) self.now.parameters.now (length buffer.old)) buffer.old }
        ensures opens { IfOk result (λ n.
            OpensAs (code_of self.now.command) self.now.parameters.now (take n buffer.new)) }
    {
        if buffer.len() < self.parameters.len() + 3 {
            return Err(Refusal::Buffer);
        }
        self.lay(buffer)
    }

    // Writes the frame into a buffer that has room for it.
    fn lay(&self, buffer: &mut [u8]) -> Result<usize, Refusal>
        requires { length self.now.parameters.now + 3 ≤ length buffer.old }
        ensures answer { write_result result
            ≡ result_of (making (code_of self.now.command) self.now.parameters.now (length buffer.old)) }
        ensures buffer { buffer.new
            ≡ buffer_after (making (code_of self.now.command) self.now.parameters.now (length buffer.old)) buffer.old }
        ensures opens { IfOk result (λ n.
            OpensAs (code_of self.now.command) self.now.parameters.now (take n buffer.new)) }
    {
        let mut writer = Writer::new(buffer);
        writer.put(&[self.command.code()])?;
        writer.put(self.parameters)?;
        writer.seal()?;
        Ok(writer.filled())
    }
}
