// What a tag forgets while nothing is sent.
ghost use Rattle.std.specs.Prelude.{◌≡◌};
ghost use Rattle.record.specs.Gaps.{after_gap};

use crate::{State, Tag, WriteMark};

/// The shortest gap, in microseconds, in which a tag loses its place in the reader's round.
pub const SHORT_GAP: u32 = 250;

/// The shortest gap, in microseconds, in which a tag loses its ID flag too.
pub const LONG_GAP: u32 = 4_000_000;

impl Tag {
    /// Lets so many microseconds pass. What a tag then forgets is in docs/tags.md.
    pub fn pass(&mut self, microseconds: u32)
        ensures tag { self.new ≡ after_gap microseconds self.old }
    {
        if microseconds < SHORT_GAP {
            return;
        }
        self.state = State::Ready;
        self.counter = 0;
        self.mark = WriteMark::Clear;
        self.permission = None;
        if microseconds >= LONG_GAP {
            self.identified = false;
        }
    }
}
