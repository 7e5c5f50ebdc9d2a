// What is listed of a slot.
use field::hearing::Hearing;
use protocol::command::Command;

/// The command that opened the slot, what was heard, and how many groups then waited.
#[derive(Clone, Copy, PartialEq, Eq, Debug)]
pub struct ListedSlot {
    pub command: Command,
    pub hearing: Hearing,
    pub waiting: u8,
}

/// An entry for storage that holds none yet.
pub const BLANK: ListedSlot = ListedSlot {
    command: Command::Select,
    hearing: Hearing::Silence,
    waiting: 0,
};
