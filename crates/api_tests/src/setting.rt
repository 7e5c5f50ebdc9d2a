// What the tests share: two new tags, and their sweep slot by slot.
use bench::bench::Bench;
use field::hearing::Hearing;
use notation::sample::numbered_tag;
use protocol::command::Command;
use record::{Serial, Tag};
use slice_vec::vec::SliceVec;
use slot::kinds::{ClashSlot, LoneSlot, Slot};
use slot::listed::ListedSlot;
use slot::lists::Lists;
use std::process::Abort;

// The row in which the second tag lets the first go before.
pub(crate) const COINS: [u64; 1] = [2];

// The slots of the two tags, split by that row.
pub(crate) const SLOTS: [ListedSlot; 3] = [
    ListedSlot {
        command: Command::Select,
        hearing: Hearing::Clash,
        waiting: 0,
    },
    ListedSlot {
        command: Command::Query,
        hearing: Hearing::Lone,
        waiting: 1,
    },
    ListedSlot {
        command: Command::Scroll,
        hearing: Hearing::Lone,
        waiting: 0,
    },
];

pub(crate) const FIRST: Serial = [0xef, 4, 2, 0, 0, 0, 0, 1];

pub(crate) fn two_tags() -> [Tag; 2] {
    [numbered_tag(1), numbered_tag(2)]
}

pub(crate) fn bench_over(table: &mut [Tag; 2]) -> Bench<'_> {
    let mut bench = Bench::new();
    let _ = bench.set_table(table);
    bench
}

// Empty lists in some storage.
pub(crate) fn lists_in<'a>(slots: &'a mut [ListedSlot], serials: &'a mut [Serial]) -> Lists<'a> {
    Lists {
        slots: SliceVec::new(slots),
        serials: SliceVec::new(serials),
    }
}

// A slot that is to be opened as a clash.
pub(crate) fn clash<E: Drop>(rt: &impl Abort, opened: Result<Slot, E>) -> ClashSlot {
    match opened {
        Ok(Slot::Clash(slot)) => slot,
        _ => panic!(rt; "no clash"),
    }
}

pub(crate) fn lone<E: Drop>(rt: &impl Abort, opened: Result<Slot, E>) -> LoneSlot {
    match opened {
        Ok(Slot::Lone(slot)) => slot,
        _ => panic!(rt; "no lone tag"),
    }
}
