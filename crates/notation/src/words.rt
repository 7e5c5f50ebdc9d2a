// The words of a record.
ghost use Rattle.std.specs.Prelude.{◌≡◌, Ok, Err, Some, None, MatchOption, IfOk, IfErr};
ghost use Rattle.notation.specs.Hexadecimal.{SpellsByte};
ghost use Rattle.notation.specs.Errors.{Reads};
ghost use Rattle.notation.specs.Words.{SpellsBit, SpellsState, SpellsMark, SpellsPermission, SpellsLocks};
ghost use Rattle.notation.specs.Words.{ReadsNext, SpellsParts, IsNoParts};
ghost use Rattle.notation.specs.declared.error.NotationError.TheVariants.{Bytes, Bit, Mark, Missing, Surplus};

use crate::error::NotationError;
use crate::hexadecimal::{read_array, read_byte};
use record::{MEMORY_LENGTH, State, Tag, WriteMark};
use std::array;
use std::str::SplitWhitespace;

// A lock bit for each of a tag's bytes.
const LOCK_BYTES: usize = MEMORY_LENGTH / 8;

/// A word that has to be there.
pub fn word(next: Option<&str>) -> Result<&str, NotationError>
    ensures { MatchOption next.entry (result ≡ Err Missing) (λ text. result ≡ Ok text) }
{
    next.ok_or(NotationError::Missing)
}

/// No word, where there may be none.
pub fn no_word(next: Option<&str>) -> Result<(), NotationError>
    ensures { MatchOption next.entry (result ≡ Ok tt) (λ _. result ≡ Err Surplus) }
{
    next.map_or(Ok(()), |_| Err(NotationError::Surplus))
}

/// `parse` would read `true` and `false` instead.
pub fn read_bit(text: &str) -> Result<bool, NotationError>
    ensures bit { Reads SpellsBit Bit text.now result }
{
    match text {
        "0" => Ok(false),
        "1" => Ok(true),
        _ => Err(NotationError::Bit),
    }
}

pub fn read_state(text: &str) -> Result<State, NotationError>
    ensures { Reads SpellsState NotationError.State text.now result }
{
    text.parse::<State>().or(Err(NotationError::State))
}

/// By its one digit, since 01 and +1 are none of a mark's spellings.
pub fn read_mark(text: &str) -> Result<WriteMark, NotationError>
    ensures mark { Reads SpellsMark Mark text.now result }
{
    let [digit @ b'0'..=b'9'] = text.as_bytes() else {
        return Err(NotationError::Mark);
    };
    WriteMark::try_from(*digit - b'0').or(Err(NotationError::Mark))
}

/// An address, or a dash for none.
pub fn read_permission(text: &str) -> Result<Option<u8>, NotationError>
    ensures permission { Reads SpellsPermission Bytes text.now result }
{
    if text == "-" {
        return Ok(None);
    }
    Ok(Some(read_byte(text)?))
}

/// The highest bit of the first byte is address 00.
pub fn read_locks(text: &str) -> Result<[bool; MEMORY_LENGTH], NotationError>
    ensures locks { Reads SpellsLocks Bytes text.now result }
{
    let bytes = read_array::<LOCK_BYTES>(text)?;
    Ok(array::from_fn(|address| (bytes[address / 8] >> (7 - address % 8)) % 2 == 1))
}

/// A record's state, ID flag, counter, write mark and permission, by a word each; memory and locks stay.
#[tactic(auto, using(crate::proofs::Parts::no_state))]
pub fn read_parts(words: &mut SplitWhitespace<'_>, tag: Tag) -> Result<Tag, NotationError>
    ensures ok { IfOk result (λ t. SpellsParts words.old words.new t) }
    ensures memory { IfOk result (λ t. t.memory ≡ tag.memory) }
    ensures locks { IfOk result (λ t. t.locks ≡ tag.locks) }
    ensures err { IfErr result (λ e. IsNoParts words.old words.new e) }
{
    Ok(Tag {
        state: next_state(words)?,
        identified: next_bit(words)?,
        counter: next_byte(words)?,
        mark: next_mark(words)?,
        permission: next_permission(words)?,
        ..tag
    })
}

// Each reader at the next word. One call that took the reader as a closure would have to say of it all that these
// clauses do.
fn next_state(words: &mut SplitWhitespace<'_>) -> Result<State, NotationError>
    ensures { ReadsNext SpellsState NotationError.State words.old words.new result }
{
    read_state(word(words.next())?)
}

fn next_bit(words: &mut SplitWhitespace<'_>) -> Result<bool, NotationError>
    ensures { ReadsNext SpellsBit Bit words.old words.new result }
{
    read_bit(word(words.next())?)
}

fn next_byte(words: &mut SplitWhitespace<'_>) -> Result<u8, NotationError>
    ensures { ReadsNext SpellsByte Bytes words.old words.new result }
{
    read_byte(word(words.next())?)
}

fn next_mark(words: &mut SplitWhitespace<'_>) -> Result<WriteMark, NotationError>
    ensures { ReadsNext SpellsMark Mark words.old words.new result }
{
    read_mark(word(words.next())?)
}

fn next_permission(words: &mut SplitWhitespace<'_>) -> Result<Option<u8>, NotationError>
    ensures { ReadsNext SpellsPermission Bytes words.old words.new result }
{
    read_permission(word(words.next())?)
}
