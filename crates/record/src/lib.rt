// What a tag of the chip SL3ICS31 holds, and what it forgets in a gap.
#![tactic(auto)]

ghost use Rattle.std.specs.Prelude.{◌≡◌, ◌-◌, ◌↔◌, IsTrue, slice_index_or};
ghost use Rattle.std.specs.Cmp.{partial_equiv_from_equiv, and_equiv, on_equiv, nat_eq_equiv, bool_eq_equiv};
ghost use Rattle.std.specs.Cmp.Lexicographic.{lists_equiv, options_equiv};
ghost use Rattle.std.specs.Str.{bytes_eq};
ghost use Rattle.record.specs.Records.{byte_at, locked_at, serial_of, mark_number, fallen, is_write_ok, new_tag};
ghost use Rattle.record.specs.Alike.{alike, state_number};

pub mod gap;
pub mod marks;
mod masks;
pub mod names;
pub mod unknown;

/// How many bytes a tag has: addresses 00 to 37.
pub const MEMORY_LENGTH: usize = 56;

/// How many of them, from the first on, are the serial number.
pub const SERIAL_LENGTH: usize = 8;

/// The bytes of a tag, from address 00 to 37.
pub type Memory = [u8; MEMORY_LENGTH];

/// A serial number: the first eight bytes of a memory.
pub type Serial = [u8; SERIAL_LENGTH];

/// What a tag is doing for the reader.
#[derive(Clone, Copy, PartialEq, Eq, Debug)]
pub enum State {
    /// Waits to be selected.
    Ready = 0,
    /// Selected, and answers in its turn.
    Singulation = 1,
    /// Has been read or written by its serial number.
    Inventoried = 2,
}

/// For how many frames more a tag knows that it was written or locked.
#[derive(Clone, Copy, PartialEq, Eq, Debug)]
pub enum WriteMark {
    Clear = 0,
    Fading = 1,
    Fresh = 2,
}

/// The record of a tag. Each value of these types is one that a tag can have, so every part is open to its owner.
/// docs/tags.md says what each part is for.
#[derive(Clone, Copy)]
pub struct Tag {
    pub memory: Memory,
    /// For each byte, whether it can no more be written. The locks lie beside the bytes and not with them, so that the
    /// bytes can be lent in one piece.
    pub locks: [bool; MEMORY_LENGTH],
    pub state: State,
    /// The ID flag.
    pub identified: bool,
    /// How many groups answer before this tag does.
    pub counter: u8,
    pub mark: WriteMark,
    /// The address that the next frame may lock.
    pub permission: Option<u8>,
}

impl WriteMark {
    /// The mark as a number from 0 to 2.
    pub fn number(self) -> u8
        ensures { result ≡ mark_number self }
    {
        self as u8
    }

    /// One less, if it is not 0.
    pub fn fallen(self) -> WriteMark
        ensures mark { result ≡ fallen self }
        ensures number { mark_number result ≡ mark_number self - 1 }
    {
        match self {
            WriteMark::Fresh => WriteMark::Fading,
            WriteMark::Fading | WriteMark::Clear => WriteMark::Clear,
        }
    }

    /// WRITE_OK, of a mark that has fallen.
    pub fn is_ok(self) -> bool
        ensures { result ≡ is_write_ok self }
    {
        match self {
            WriteMark::Fresh | WriteMark::Fading => true,
            WriteMark::Clear => false,
        }
    }
}

impl Tag {
    /// A new tag: READY, with its first two bytes locked and all else clear.
    pub fn new(memory: Memory) -> Tag
        ensures tag { result ≡ new_tag memory }
    {
        let mut locks = [false; MEMORY_LENGTH];
        locks[0] = true;
        locks[1] = true;
        Tag {
            memory,
            locks,
            state: State::Ready,
            identified: false,
            counter: 0,
            mark: WriteMark::Clear,
            permission: None,
        }
    }

    /// The serial number, the first eight bytes.
    pub fn serial(&self) -> &[u8]
        ensures { result.now ≡ serial_of self.now }
    {
        &self.memory[..SERIAL_LENGTH]
    }

    /// Whether these are the tag's serial number. In a crowd most differ in the last byte, which is cheap to compare:
    /// the whole costs a call, and every tag would make it at each frame to one of them.
    pub fn has_serial(&self, serial: &[u8]) -> bool
        ensures { result ≡ bytes_eq (serial_of self.now) serial.now }
    {
        serial.len() == SERIAL_LENGTH
            && serial[SERIAL_LENGTH - 1] == self.memory[SERIAL_LENGTH - 1]
            && self.serial() == serial
    }

    /// The byte at an address, 00 above 37.
    pub fn byte(&self, address: usize) -> u8
        ensures { result ≡ byte_at self.now address }
    {
        element(&self.memory, address, 0)
    }

    /// Whether the byte at an address is locked, as all above 37 are.
    pub fn is_locked(&self, address: usize) -> bool
        ensures locked { result ≡ locked_at self.now address }
    {
        element(&self.locks, address, true)
    }
}

// Two tags are alike if their records are equal in every part. A derived test would have no place for its clauses, and
// nothing would say that equal tags are identical.
impl PartialEq for Tag {
    ghost eq = { alike };

    ghost laws = { partial_equiv_from_equiv
        (and_equiv (on_equiv (λ t. t.memory) (lists_equiv nat_eq_equiv))
        (and_equiv (on_equiv (λ t. t.locks) (lists_equiv bool_eq_equiv))
        (and_equiv (on_equiv (λ t. state_number t.state) nat_eq_equiv)
        (and_equiv (on_equiv (λ t. t.identified) bool_eq_equiv)
        (and_equiv (on_equiv (λ t. t.counter) nat_eq_equiv)
        (and_equiv (on_equiv (λ t. mark_number t.mark) nat_eq_equiv)
        (on_equiv (λ t. t.permission) (options_equiv nat_eq_equiv)))))))) };

    fn eq(&self, other: &Tag) -> bool
        ensures value { result ≡ alike self.now other.now }
        ensures alike { IsTrue result ↔ (self.now ≡ other.now) }
    {
        self.memory == other.memory
            && self.locks == other.locks
            && self.state == other.state
            && self.identified == other.identified
            && self.counter == other.counter
            && self.mark == other.mark
            && self.permission == other.permission
    }
}

// An element of a list, or what counts for one beyond its end.
fn element<T: Copy>(row: &[T], place: usize, beyond: T) -> T
    ensures { result ≡ slice_index_or row.now place beyond }
{
    row.get(place).copied().unwrap_or(beyond)
}
