// The names of a tag's states, told and read.
ghost use Rattle.std.specs.Prelude.{◌≡◌, Some};
ghost use Rattle.record.specs.Names.{state_name, ReadsState};

use crate::State;
use crate::unknown::Unknown;
use std::fmt;
use std::str::FromStr;

impl State {
    /// The state in capitals, as the chip's users know it.
    pub fn name(self) -> &'static str
        ensures name { result.now ≡ state_name self }
    {
        match self {
            State::Ready => "READY",
            State::Singulation => "SINGULATION",
            State::Inventoried => "INVENTORIED",
        }
    }
}

impl fmt::Display for State {
    ghost output = { λ s. Some (state_name s) };

    fn fmt<W: fmt::Write>(&self, f: &mut fmt::Formatter<W>) -> fmt::Result {
        f.pad(self.name())
    }
}

impl FromStr for State {
    type Err = Unknown;

    ghost from_str_gives = { ReadsState };

    fn from_str(text: &str) -> Result<State, Unknown> {
        match text {
            "READY" => Ok(State::Ready),
            "SINGULATION" => Ok(State::Singulation),
            "INVENTORIED" => Ok(State::Inventoried),
            _ => Err(Unknown::State),
        }
    }
}
