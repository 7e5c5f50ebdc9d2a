// The reply buffer of a send.
ghost use Rattle.std.specs.Prelude.{◌≡◌};
ghost use Rattle.field.specs.Sends.{cleared};

use crate::field::ROOM;

/// Sets as much of a buffer as a reply may take to 00: its first 258 bytes, or all of a shorter one.
#[tactic(auto, using(crate::proofs::Buffers::cleared_front))]
pub fn clear(buffer: &mut [u8])
    ensures buffer { buffer.new ≡ cleared buffer.old }
{
    let room = buffer.len().min(ROOM);
    buffer[..room].fill(0);
}
