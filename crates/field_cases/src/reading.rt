// The words of a question that no other program has, read.
ghost use Rattle.std.specs.Prelude.{◌≡◌, IfOk, IfErr};
ghost use Rattle.notation.specs.Errors.{Reads};
ghost use Rattle.notation.specs.declared.error.NotationError.TheVariants.{Bytes, Missing};
ghost use Rattle.field_cases.specs.Questions.{SpellsRow, first_word, behind_first, IsOneWord};

use anyhow::bail;
use notation::error::NotationError;
use notation::hexadecimal::{read_array, read_bytes};
use notation::words::{no_word, read_locks, read_parts, word};
use record::{MEMORY_LENGTH, Tag};
use std::alloc::Global;

// The first bytes of a memory, whose others are 00.
fn read_memory(heap: Global, text: &str) -> anyhow::Result<[u8; MEMORY_LENGTH]> {
    let bytes = read_bytes(heap, text)?;
    if bytes.len() > MEMORY_LENGTH {
        bail!("too many bytes for a memory");
    }
    let mut memory = [0; MEMORY_LENGTH];
    for (place, byte) in memory.iter_mut().zip(bytes.iter()) {
        *place = *byte;
    }
    Ok(memory)
}

// The words of a record, STATE FLAG COUNTER MARK PERMISSION LOCKS MEMORY.
pub(crate) fn read_tag(heap: Global, text: &str) -> anyhow::Result<Tag> {
    let mut words = text.split_whitespace();
    let parts = read_parts(&mut words, Tag::new([0; MEMORY_LENGTH]))?;
    let tag = Tag {
        locks: read_locks(word(words.next())?)?,
        memory: read_memory(heap, word(words.next())?)?,
        ..parts
    };
    no_word(words.next())?;
    Ok(tag)
}

// The first word of several, and what stands behind the space after it.
pub(crate) fn split_word(text: &str) -> Result<(&str, &str), NotationError>
    ensures ok { IfOk result (λ p. (p.0.now ≡ first_word text.now) × (p.1.now ≡ behind_first text.now)) }
    ensures err { IfErr result (λ e. (e ≡ Missing) × IsOneWord text.now) }
{
    text.split_once(' ').ok_or(NotationError::Missing)
}

// A row of coins, by its sixteen digits.
pub(crate) fn read_row(text: &str) -> Result<u64, NotationError>
    ensures row { Reads SpellsRow Bytes text.now result }
{
    Ok(u64::from_be_bytes(read_array::<8>(text)?))
}
