// Bytes in hexadecimal, with capital letters, and a dash for none.
ghost use Rattle.std.specs.Fmt.{WritesOnOk};
ghost use Rattle.std.specs.Prelude.{◌≡◌, ◌⊎◌, [], ◌∷◌, codes, IfOk, IfErr, Some};
ghost use Rattle.hex.specs.Hex.{encode_upper};
ghost use Rattle.notation.specs.Hexadecimal.{shown, has_small, SpellsBytes, SpellsArray, SpellsByte, IsNoBytes};
ghost use Rattle.notation.specs.Errors.{Reads};
ghost use Rattle.notation.specs.declared.error.NotationError.TheVariants.{Bytes, Memory};

use crate::error::NotationError;
use hex::FromHex;
use std::alloc::Global;
use std::fmt;

/// Bytes, as they are written, with something between each two of them.
#[derive(Drop)]
pub struct Hex<'a> {
    pub bytes: &'a [u8],
    pub between: &'a str,
}

impl<'a> Hex<'a> {
    /// Bytes with nothing between them: `EF0402`.
    pub fn new(bytes: &'a [u8]) -> Hex<'a>
        ensures bytes { result.bytes.now ≡ bytes.now }
        ensures between { result.between.now ≡ [] }
    {
        Hex { bytes, between: "" }
    }

    /// Bytes with a space between each two: `EF 04 02`.
    pub fn spaced(bytes: &'a [u8]) -> Hex<'a>
        ensures bytes { result.bytes.now ≡ bytes.now }
        ensures between { result.between.now ≡ codes " " }
    {
        Hex {
            bytes,
            between: " ",
        }
    }
}

impl fmt::Display for Hex<'_> {
    ghost output = { λ hex. Some (shown hex.between.now hex.bytes.now) };

    fn fmt<W: fmt::Write>(&self, f: &mut fmt::Formatter<W>) -> fmt::Result
        ensures writes { WritesOnOk W.Write.write_str_gives f.old result
            (shown self.now.between.now self.now.bytes.now) f.new }
    {
        let [first, rest @ ..] = self.bytes else {
            return write!(f, "-");
        };
        write_byte(f, *first)?;
        for byte in rest {
            write!(f, "{}", self.between)?;
            write_byte(f, *byte)?;
        }
        Ok(())
    }
}

fn write_byte<W: fmt::Write>(f: &mut fmt::Formatter<W>, byte: u8) -> fmt::Result
    ensures { WritesOnOk W.Write.write_str_gives f.old result (encode_upper (byte ∷ [])) f.new }
{
    write!(f, "{byte:02X}")
}

/// The bytes that a text spells.
pub fn read_bytes(heap: Global, text: &str) -> Result<Vec<u8>, NotationError>
    ensures ok { IfOk result (λ bytes. SpellsBytes text.now bytes.items) }
    ensures err { IfErr result (λ e. (e ≡ Memory) ⊎ IsNoBytes text.now e) }
{
    if text == "-" {
        return Ok(Vec::new(heap));
    }
    if has_small(text) {
        return Err(NotationError::Bytes);
    }
    Ok(hex::decode(heap, text)?)
}

/// As many bytes as are wanted.
pub fn read_array<const N: usize>(text: &str) -> Result<[u8; N], NotationError>
    ensures array { Reads (SpellsArray N) Bytes text.now result }
{
    if has_small(text) {
        return Err(NotationError::Bytes);
    }
    <[u8; N]>::from_hex(text).or(Err(NotationError::Bytes))
}

/// One byte, by its two digits.
pub fn read_byte(text: &str) -> Result<u8, NotationError>
    ensures byte { Reads SpellsByte Bytes text.now result }
{
    let [byte] = read_array::<1>(text)?;
    Ok(byte)
}

// Whether a text has small letters, which `hex` would read too.
fn has_small(text: &str) -> bool
    ensures small { result ≡ has_small text.now }
{
    text.bytes().any(|letter| letter.is_ascii_lowercase())
}
