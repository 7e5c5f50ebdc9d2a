// The names of commands and parameters, as the chip's users know them.
ghost use Rattle.std.specs.Prelude.{◌≡◌, Some};
ghost use Rattle.protocol.specs.Names.{command_name, parameter_name};

use crate::command::{Command, Parameter};
use std::fmt;

impl Command {
    /// The name in capitals, as the chip's users know it.
    pub fn name(self) -> &'static str
        ensures { result.now ≡ command_name self }
    {
        match self {
            Command::Select => "SELECT",
            Command::UnselectNe => "UNSELECT_NE",
            Command::UnselectIdFlag => "UNSELECT_ID_FLAG",
            Command::UnselectNoidFlag => "UNSELECT_NOID_FLAG",
            Command::Query => "QUERY",
            Command::Scroll => "SCROLL",
            Command::Repeat => "REPEAT",
            Command::Reset => "RESET",
            Command::Read => "READ",
            Command::Verify => "VERIFY",
            Command::Lock => "LOCK",
            Command::Qlock => "QLOCK",
            Command::ReadFlexible => "READ_FLEXIBLE",
            Command::Write => "WRITE",
        }
    }
}

impl Parameter {
    /// The name in capitals, as the chip's users know it.
    pub fn name(self) -> &'static str
        ensures name { result.now ≡ parameter_name self }
    {
        match self {
            Parameter::Serial => "SNR",
            Parameter::Address => "ADDRESS",
            Parameter::Mask => "BYTE_MASK",
            Parameter::Word => "WORD_DATA",
            Parameter::Data => "BLOCK_DATA",
            Parameter::Length => "LENGTH",
            Parameter::Ignored => "IGNORED",
        }
    }
}

impl fmt::Display for Command {
    ghost output = { λ c. Some (command_name c) };

    fn fmt<W: fmt::Write>(&self, f: &mut fmt::Formatter<W>) -> fmt::Result {
        f.pad(self.name())
    }
}

impl fmt::Display for Parameter {
    ghost output = { λ p. Some (parameter_name p) };

    fn fmt<W: fmt::Write>(&self, f: &mut fmt::Formatter<W>) -> fmt::Result {
        f.pad(self.name())
    }
}
