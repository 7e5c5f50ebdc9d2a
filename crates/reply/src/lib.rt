// What a tag replies: told in a few bytes, and written out by a call of its own.
#![tactic(auto)]

ghost use Rattle.std.specs.Prelude.{◌≡◌, ◌+◌, ◌≤◌, length, is_ok};
ghost use Rattle.crc.specs.Check.{sealed};
ghost use Rattle.frame.specs.Makings.{made, result_of, buffer_after, writing};
ghost use Rattle.frame.specs.Writing.{Put};
ghost use Rattle.protocol.specs.Refusals.{wrote, write_result};
ghost use Rattle.record.specs.Records.{bytes_from};
ghost use Rattle.reply.specs.Replies.{data_of, longest_reply};

use frame::writer::Writer;
use protocol::refusal::Refusal;
use record::Tag;

/// How many bytes the longest reply has: 256 of memory and their check value.
pub const LONGEST_REPLY: usize = 258;

/// What a reply says, of a tag's memory or of how a command went.
#[derive(Clone, Copy, PartialEq, Eq, Debug)]
pub enum Reply {
    /// The serial number.
    Serial,
    /// The byte at an address and so many more behind it.
    Memory { address: u8, more: u8 },
    /// One byte that tells how a command went.
    Status(u8),
}

impl Reply {
    /// Writes the reply of a tag, data and check value, at the front of a buffer, and tells its length.
    /// 258 bytes are always enough; a buffer too short is refused by 5.
    pub fn write(self, tag: &Tag, buffer: &mut [u8]) -> Result<usize, Refusal>
        ensures answer { write_result result ≡ result_of (writing (sealed (data_of tag.now self)) (length buffer.old)) }
        ensures buffer { buffer.new ≡
            buffer_after (writing (sealed (data_of tag.now self)) (length buffer.old)) buffer.old }
        ensures longest { length (sealed (data_of tag.now self)) ≤ longest_reply }
    {
        if buffer.len() < self.length(tag) {
            return Err(Refusal::Buffer);
        }
        self.lay(tag, buffer)
    }

    // Writes the reply into a buffer that has room for it.
    fn lay(self, tag: &Tag, buffer: &mut [u8]) -> Result<usize, Refusal>
        requires { length (sealed (data_of tag.now self)) ≤ length buffer.old }
        ensures answer { write_result result ≡ wrote (length (sealed (data_of tag.now self))) }
        ensures buffer { buffer.new ≡ buffer_after (made (sealed (data_of tag.now self))) buffer.old }
    {
        let mut writer = Writer::new(buffer);
        self.put_data(tag, &mut writer)?;
        writer.seal()?;
        Ok(writer.filled())
    }

    // How long the reply is, with its check value.
    fn length(self, tag: &Tag) -> usize
        ensures length { result ≡ length (sealed (data_of tag.now self)) }
        ensures longest { result ≤ longest_reply }
    {
        match self {
            Reply::Serial => tag.serial().len() + 2,
            Reply::Memory { more, .. } => usize::from(more) + 3,
            Reply::Status(_) => 3,
        }
    }

    // Puts the data, for which there is room.
    fn put_data(self, tag: &Tag, writer: &mut Writer<'_>) -> Result<(), Refusal>
        requires { writer.old.filled + length (data_of tag.now self) ≤ length writer.old.buffer.now }
        ensures { Put (data_of tag.now self) writer.old writer.new (is_ok result) }
    {
        match self {
            Reply::Serial => writer.put(tag.serial()),
            Reply::Memory { address, more } => {
                put_memory(tag, address, usize::from(more) + 1, writer)
            }
            Reply::Status(status) => writer.put(&[status]),
        }
    }
}

// Puts so many bytes of a tag from an address on, for which there is room. The tag is the receiver, but of another
// crate.
fn put_memory(tag: &Tag, address: u8, count: usize, writer: &mut Writer<'_>) -> Result<(), Refusal>
    requires { writer.old.filled + count ≤ length writer.old.buffer.now }
    ensures { Put (bytes_from tag.now.memory address count) writer.old writer.new (is_ok result) }
{
    // Address by address: the bytes that are there and the zeros behind them would be two puts, each with its bounds.
    for place in 0..count {
        writer.put(&[tag.byte(usize::from(address) + place)])?;
    }
    Ok(())
}
