// What is read and names nothing.
ghost use Rattle.std.specs.Prelude.{Some};
ghost use Rattle.record.specs.Names.{unknown_text};

use std::error::Error;
use std::fmt;

/// What was read, and names nothing.
#[derive(Clone, Copy, PartialEq, Eq, Debug)]
pub enum Unknown {
    /// A text that names no state.
    State,
    /// A number that no write mark has.
    Mark,
}

impl fmt::Display for Unknown {
    ghost output = { λ unknown. Some (unknown_text unknown) };

    fn fmt<W: fmt::Write>(&self, f: &mut fmt::Formatter<W>) -> fmt::Result {
        f.pad(match self {
            Unknown::State => "no state",
            Unknown::Mark => "no write mark",
        })
    }
}

impl Error for Unknown {}
