// Putting bytes into a writer, one behind another.
ghost use Rattle.std.specs.Prelude.{◌≡◌, ◌+◌, ◌-◌, ◌≤◌, length, is_ok, IfErr};
ghost use Rattle.crc.specs.Check.{high_byte_first};
ghost use Rattle.frame.specs.Cases.{ShortReplies};
ghost use Rattle.frame.specs.Writing.{register_of, Put, overlaid};
ghost use Rattle.protocol.specs.Refusals.{number_of};

use crate::writer::Writer;
use protocol::refusal::Refusal;

impl<'a> Writer<'a> {
    /// Puts some bytes behind those that are there, or none of them where they do not all fit.
    pub fn put(&mut self, bytes: &[u8]) -> Result<(), Refusal>
        ensures put { Put bytes.now self.old self.new (is_ok result) }
        ensures refusal { IfErr result (λ e. number_of e ≡ 5) }
    {
        let start = self.filled;
        if self.buffer.len() - start < bytes.len() {
            return Err(Refusal::Buffer);
        }
        overlay(self.buffer, start, bytes);
        self.filled = start + bytes.len();
        self.register.take(bytes);
        Ok(())
    }

    /// Puts the check value of all that was put behind it, or nothing where it does not fit.
    #[tactic(auto, using(crate::proofs::Limits::short_replies))]
    pub fn seal(&mut self) -> Result<(), Refusal>
        ensures put { Put (high_byte_first (0xffff - register_of self.old)) self.old self.new (is_ok result) }
        ensures refusal { IfErr result (λ e. number_of e ≡ 5) }
        ensures replies { ShortReplies }
    {
        let value = self.register.check_value();
        self.put(&value.to_be_bytes())
    }
}

// Lays bytes over a buffer that is long enough, from a place on.
fn overlay(buffer: &mut [u8], start: usize, bytes: &[u8])
    requires { start + length bytes.now ≤ length buffer.old }
    ensures { buffer.new ≡ overlaid buffer.old start bytes.now }
{
    buffer[start..start + bytes.len()].copy_from_slice(bytes);
}
