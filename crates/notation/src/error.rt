// Why a text is not read, or a frame not made.
ghost use Rattle.std.specs.Fmt.{WritesOnOk};
ghost use Rattle.std.specs.Prelude.{◌≡◌, Some};
ghost use Rattle.notation.specs.Errors.{error_text, of_hex};
ghost use Rattle.notation.specs.declared.error.NotationError.TheVariants.{Memory, Refused};

use hex::FromHexError;
use protocol::refusal::Refusal;
use std::alloc::AllocError;
use std::error::Error;
use std::fmt;

/// Why a text is not read, or a frame not made.
#[derive(Clone, Copy, PartialEq, Eq, Debug)]
pub enum NotationError {
    /// A text that is no bytes in hexadecimal, or not as many as are wanted.
    Bytes,
    /// A text that is neither 0 nor 1.
    Bit,
    /// A text that names no state.
    State,
    /// A text that is no write mark.
    Mark,
    /// No word where one is wanted.
    Missing,
    /// A word where none is wanted.
    Surplus,
    /// A call that makes no frame.
    Refused(Refusal),
    /// There was no memory for what was to come.
    Memory,
}

impl fmt::Display for NotationError {
    ghost output = { λ notation_error. Some (error_text notation_error) };

    fn fmt<W: fmt::Write>(&self, f: &mut fmt::Formatter<W>) -> fmt::Result
        ensures writes { WritesOnOk W.Write.write_str_gives f.old result (error_text self.now) f.new }
    {
        match self {
            NotationError::Bytes => f.pad("not the bytes that are wanted, in hexadecimal"),
            NotationError::Bit => f.pad("neither 0 nor 1"),
            NotationError::State => f.pad("no state"),
            NotationError::Mark => f.pad("no write mark"),
            NotationError::Missing => f.pad("a word is missing"),
            NotationError::Surplus => f.pad("a word too many"),
            NotationError::Refused(refusal) => refusal.fmt(f),
            NotationError::Memory => f.pad("out of memory"),
        }
    }
}

impl Error for NotationError {}

impl From<FromHexError> for NotationError {
    ghost from_gives = { λ error notation_error. notation_error ≡ of_hex error };

    fn from(error: FromHexError) -> NotationError
        ensures notation_error { result ≡ of_hex error }
    {
        match error {
            FromHexError::OutOfMemory => NotationError::Memory,
            _ => NotationError::Bytes,
        }
    }
}

impl From<Refusal> for NotationError {
    ghost from_gives = { λ refusal notation_error. notation_error ≡ Refused refusal };

    fn from(refusal: Refusal) -> NotationError {
        NotationError::Refused(refusal)
    }
}

impl From<AllocError> for NotationError {
    ghost from_gives = { λ _ notation_error. notation_error ≡ Memory };

    fn from(_error: AllocError) -> NotationError {
        NotationError::Memory
    }
}
