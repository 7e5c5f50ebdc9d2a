// The fourteen commands of the chip SL3ICS31, with their codes and the lengths of their frames.
ghost use Rattle.std.specs.Prelude.{◌≡◌, map};
ghost use Rattle.protocol.specs.Commands.{code_of, commands, entry_of, first_entry};
ghost use Rattle.protocol.specs.Entries.{EntryOrRefusal};

use crate::refusal::Refusal;

/// The fourteen commands, each with its code. docs/frames.md has their parameters.
#[derive(Clone, Copy, PartialEq, Eq, Debug)]
pub enum Command {
    Select = 0x00,
    UnselectNe = 0x05,
    UnselectIdFlag = 0x19,
    UnselectNoidFlag = 0x1a,
    Query = 0x08,
    Scroll = 0x09,
    Repeat = 0x15,
    Reset = 0x0a,
    Read = 0x0c,
    Verify = 0x1d,
    Lock = 0x0f,
    Qlock = 0x11,
    ReadFlexible = 0x51,
    Write = 0x1b,
}

/// What stands behind the code in a frame.
#[derive(Clone, Copy)]
pub enum Parameter {
    /// The serial number of the tag that is meant.
    Serial,
    /// An address in the tag's memory.
    Address,
    /// Which of the data bytes count, the highest bit for the first.
    Mask,
    /// Eight bytes to compare with.
    Word,
    /// Four bytes to write.
    Data,
    /// One less than the number of bytes to read.
    Length,
    /// Two bytes that no tag looks at.
    Ignored,
}

/// All parameters, in the order in which frames have them.
pub const PARAMETERS: [Parameter; 7] = [
    Parameter::Serial,
    Parameter::Address,
    Parameter::Mask,
    Parameter::Word,
    Parameter::Data,
    Parameter::Length,
    Parameter::Ignored,
];

/// A command, its code, and how many bytes its frame has, from the code to the check value.
#[derive(Clone, Copy)]
pub struct Entry {
    pub command: Command,
    pub code: u8,
    pub length: usize,
}

/// All commands. Opening and making both go by this table.
pub const COMMANDS: [Entry; 14] = [
    Entry {
        command: Command::Select,
        code: Command::Select as u8,
        length: 13,
    },
    Entry {
        command: Command::UnselectNe,
        code: Command::UnselectNe as u8,
        length: 13,
    },
    Entry {
        command: Command::UnselectIdFlag,
        code: Command::UnselectIdFlag as u8,
        length: 5,
    },
    Entry {
        command: Command::UnselectNoidFlag,
        code: Command::UnselectNoidFlag as u8,
        length: 5,
    },
    Entry {
        command: Command::Query,
        code: Command::Query as u8,
        length: 3,
    },
    Entry {
        command: Command::Scroll,
        code: Command::Scroll as u8,
        length: 3,
    },
    Entry {
        command: Command::Repeat,
        code: Command::Repeat as u8,
        length: 3,
    },
    Entry {
        command: Command::Reset,
        code: Command::Reset as u8,
        length: 3,
    },
    Entry {
        command: Command::Read,
        code: Command::Read as u8,
        length: 12,
    },
    Entry {
        command: Command::Verify,
        code: Command::Verify as u8,
        length: 12,
    },
    Entry {
        command: Command::Lock,
        code: Command::Lock as u8,
        length: 12,
    },
    Entry {
        command: Command::Qlock,
        code: Command::Qlock as u8,
        length: 12,
    },
    Entry {
        command: Command::ReadFlexible,
        code: Command::ReadFlexible as u8,
        length: 13,
    },
    Entry {
        command: Command::Write,
        code: Command::Write as u8,
        length: 17,
    },
];

/// The parameters of a SELECT of the chip's own tags, whose memory begins with EF 04: address 00, mask C0 for the first
/// two bytes, and a word of those two and six 00.
pub const OWN: [u8; 10] = [0x00, 0xc0, 0xef, 0x04, 0, 0, 0, 0, 0, 0];

impl Command {
    /// The first byte of its frames.
    pub fn code(self) -> u8
        ensures { result ≡ code_of self }
    {
        self as u8
    }
}

/// The entry of a code, if a command has it.
#[inline(always)]
pub fn find(code: u8) -> Option<Entry>
    ensures entry { result ≡ first_entry code (map entry_of commands) }
{
    first_entry(code, &COMMANDS)
}

// The entry of a code, or the refusal of a code that no command has.
impl TryFrom<u8> for Entry {
    type Error = Refusal;

    ghost try_from_gives = { EntryOrRefusal };

    #[inline(always)]
    #[tactic(auto, using(crate::proofs::Lookups::entered))]
    fn try_from(code: u8) -> Result<Entry, Refusal> {
        find(code).ok_or(Refusal::Code)
    }
}

// The first entry with a code.
#[inline(always)]
fn first_entry(code: u8, entries: &[Entry]) -> Option<Entry>
    ensures { result ≡ first_entry code entries.now }
{
    entries.iter().copied().find(|entry| entry.code == code)
}
