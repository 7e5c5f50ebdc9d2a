// Why a call is refused.
ghost use Rattle.std.specs.Prelude.{◌≡◌, Some};
ghost use Rattle.protocol.specs.Names.{refusal_name};
ghost use Rattle.protocol.specs.Refusals.{number_of};

use std::error::Error;
use std::fmt;

/// The refusals, each with its number.
#[derive(Clone, Copy, PartialEq, Eq, Debug)]
pub enum Refusal {
    /// A frame of fewer than three bytes.
    Stub = 1,
    /// A wrong check value.
    Check = 2,
    /// A code that no command has.
    Code = 3,
    /// A length that the code's command does not have.
    Length = 4,
    /// A buffer that is too short.
    Buffer = 5,
    /// More than 64 places in a field.
    Crowd = 6,
    /// No recorded row of coins, or more than 64.
    Coins = 10,
    /// A spoiler of each reply of no number.
    Period = 11,
}

impl Refusal {
    /// The number by which the refusal is known outside.
    pub fn number(self) -> u8
        ensures number { result ≡ number_of self }
    {
        self as u8
    }
}

impl fmt::Display for Refusal {
    ghost output = { λ refusal. Some (refusal_name refusal) };

    fn fmt<W: fmt::Write>(&self, f: &mut fmt::Formatter<W>) -> fmt::Result {
        f.pad(match self {
            Refusal::Stub => "stub",
            Refusal::Check => "check",
            Refusal::Code => "code",
            Refusal::Length => "length",
            Refusal::Buffer => "buffer",
            Refusal::Crowd => "crowd",
            Refusal::Coins => "coins",
            Refusal::Period => "period",
        })
    }
}

impl Error for Refusal {}
