// What is sent.
use protocol::command::{Command, OWN};

// A command with its parameters, and the coins that fall at it: the lowest bit is place 0's.
pub(crate) type Transmission = (Command, &'static [u8], u64);

// The parameters of a READ at 00 of number 1, and of number 3.
const OF_1: [u8; 9] = [0xef, 0x04, 0x02, 0x00, 0x00, 0x00, 0x00, 0x01, 0x00];

const OF_3: [u8; 9] = [0xef, 0x04, 0x02, 0x00, 0x00, 0x00, 0x00, 0x03, 0x00];

pub(crate) const TRANSMISSIONS: [Transmission; 12] = [
    (Command::Select, &OWN, 0b0000),
    // Only number 3 does not let the others go first.
    (Command::Query, &[], 0b1011),
    (Command::Read, &OF_3, 0b0000),
    (Command::Read, &OF_3, 0b0000),
    (Command::Scroll, &[], 0b0000),
    // Of the three that are left, only number 1.
    (Command::Query, &[], 0b1110),
    (Command::Repeat, &[], 0b0000),
    (Command::Read, &OF_1, 0b0000),
    (Command::Scroll, &[], 0b0000),
    // None.
    (Command::Query, &[], 0b1010),
    (Command::Scroll, &[], 0b0000),
    (Command::Reset, &[], 0b0000),
];
