// Open slots, by what was heard in them.
ghost use Rattle.std.specs.Prelude.{◌≡◌};
ghost use Rattle.slot.specs.declared.kinds.Unsplit.TheVariants as unsplit;

use crate::counts::Counts;
use crate::ending::Stopped;
use field::declined::Declined;
use record::Serial;

// Where a sweep stands: its budget of commands, how many groups wait, the place of the row of coins to draw next, and
// what it has counted.
#[derive(Clone, Copy)]
pub(crate) struct Progress {
    pub(crate) budget: u16,
    pub(crate) waiting: u8,
    pub(crate) next: usize,
    pub(crate) counts: Counts,
}

/// Nobody replied, or the one who did has been read. The slot can be left.
#[derive(Drop)]
pub struct SilentSlot {
    pub(crate) progress: Progress,
}

/// One tag replied, and waits to be read. The slot must be read or given up: it cannot be dropped.
pub struct LoneSlot {
    pub(crate) progress: Progress,
    pub(crate) serial: Serial,
}

/// Several tags replied, or one that was spoiled. The slot can be split.
#[derive(Drop)]
pub struct ClashSlot {
    pub(crate) progress: Progress,
}

/// A slot that is open. Each kind has its own calls, and a wrong one does not compile.
pub enum Slot {
    Silent(SilentSlot),
    Lone(LoneSlot),
    Clash(ClashSlot),
}

/// What comes of leaving a silent slot: the next one, or the end of a whole sweep.
pub enum Continuation {
    Next(Slot),
    Whole(Counts),
}

/// Why a clash slot is not split: a refusal, with the slot handed back, or a stop that has spent it.
#[derive(Drop)]
pub enum Unsplit {
    Refused(Declined<ClashSlot>),
    Stopped(Stopped),
}

impl From<Stopped> for Unsplit {
    ghost from_gives = { λ stopped why. why ≡ unsplit.Stopped stopped };

    fn from(stopped: Stopped) -> Unsplit {
        Unsplit::Stopped(stopped)
    }
}

/// What is known of a lone slot that is given up. The sweep has no end number.
#[derive(Clone, Copy)]
pub struct GivenUp {
    pub serial: Serial,
    pub counts: Counts,
}
