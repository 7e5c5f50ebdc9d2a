// The tags that the programs show.
ghost use Rattle.std.specs.Prelude.{◌≡◌, ◌++◌, IfOk};
ghost use Rattle.record.specs.Records.{new_tag};
ghost use Rattle.notation.specs.Samples.{sample_serial, sample_memory, numbered_serial, numbered_memory};

use record::{MEMORY_LENGTH, Serial, Tag};
use std::alloc::{AllocError, Global};

/// The serial number of the tag that is shown on its own.
pub const SERIAL: Serial = [0xef, 0x04, 0x02, 0x00, 0x00, 0x00, 0x00, 0x01];

/// That of any other, by its last byte.
pub fn numbered_serial(number: u8) -> Serial
    ensures { result ≡ numbered_serial number }
{
    let mut serial = SERIAL;
    serial[7] = number;
    serial
}

/// The tag with that serial number, new, with 00 in all other bytes.
pub fn numbered_tag(number: u8) -> Tag
    ensures tag { result ≡ new_tag (numbered_memory number) }
{
    let mut memory = [0; MEMORY_LENGTH];
    memory[..SERIAL.len()].copy_from_slice(&numbered_serial(number));
    Tag::new(memory)
}

/// The tag that is shown on its own.
pub fn sample_tag() -> Tag
    ensures tag { result ≡ new_tag sample_memory }
{
    numbered_tag(SERIAL[7])
}

/// Its serial number, and what stands behind it.
pub fn to_tag(heap: Global, rest: &[u8]) -> Result<Vec<u8>, AllocError>
    ensures { IfOk result (λ bytes. bytes.items ≡ sample_serial ++ rest.now) }
{
    let mut bytes = Vec::from_slice(heap, &SERIAL)?;
    bytes.extend_from_slice(rest)?;
    Ok(bytes)
}
