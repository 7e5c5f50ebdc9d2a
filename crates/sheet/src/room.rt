// Room without paper.
ghost use Rattle.std.specs.Prelude.{◌≡◌};

use crate::paper::Paper;
use protocol::refusal::Refusal;

// Room alone: what is printed is counted, and shown nowhere.
#[derive(Drop)]
pub(crate) struct Room {
    left: usize,
}

impl Room {
    pub(crate) fn new(left: usize) -> Room
        ensures { result.left ≡ left }
    {
        Room { left }
    }
}

impl Paper for Room {
    ghost room = { λ r. r.left };

    ghost Shows = { λ _ _ _. Unit {0} };

    fn put(&mut self, bytes: &[u8]) -> Result<(), Refusal> {
        if self.left < bytes.len() {
            return Err(Refusal::Buffer);
        }
        self.left -= bytes.len();
        Ok(())
    }
}
