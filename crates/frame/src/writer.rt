// Bytes put one behind another at the front of a lent buffer.
ghost use Rattle.std.specs.Prelude.{◌≡◌, ◌≤◌, length};

use crc::Register;

/// The buffer, how many of its bytes are filled, and the register over those that were put. The buffer is the caller's,
/// since this is for use without a heap, and so the bytes that are filled are counted beside it.
#[derive(Drop)]
pub struct Writer<'a> {
    pub(crate) buffer: &'a mut [u8],
    pub(crate) filled: usize,
    pub(crate) register: Register,
    ghost fits: { filled ≤ length buffer.now },
}

impl<'a> Writer<'a> {
    ghost use Rattle.frame.specs.Writing.{filled_of, Begun};

    /// A writer at the front of a buffer, of which nothing is filled yet.
    pub fn new(buffer: &'a mut [u8]) -> Writer<'a>
        ensures { Begun buffer.entry result }
    {
        Writer {
            buffer,
            filled: 0,
            register: Register::preset(),
        }
    }

    /// How many bytes are filled.
    pub fn filled(&self) -> usize
        ensures { result ≡ filled_of self.now }
    {
        self.filled
    }
}
