// Runs one list of calls on two fields of different kinds that begin alike: a bench, and a spoiler over a pair. Prints
// what each call has come to on either, and whether the tags agree.
use crate::building::{bench_over, crowd, pair_of, spoiler_of};
use crate::showing::show_all;
use bench::single::Single;
use field::field::ROOM;
use field::lending::Lending;
use history::call::Call;
use history::workspace::Workspace;
use record::Serial;
use slice_vec::vec::SliceVec;
use slot::listed::{BLANK, ListedSlot};
use slot::lists::Lists;
use two_fields::agreement::agree;
use two_fields::running::run;

// SCROLL, which no tag answers before it is selected.
const SCROLL: [u8; 3] = [0x09, 0x8f, 0x26];

// A sweep, a gap that makes every tag READY, a send, and another sweep.
const CALLS: [Call<'static>; 4] = [
    Call::Sweep,
    Call::Gap { microseconds: 250 },
    Call::Send {
        frame: &SCROLL,
        row: 0,
        room: ROOM,
    },
    Call::Sweep,
];

// How many commands a sweep may send.
const BUDGET: u16 = 100;

// What the lists of a sweep are kept in.
#[derive(Drop)]
struct Storage {
    slots: [ListedSlot; 64],
    serials: [Serial; 8],
}

impl Storage {
    fn new() -> Storage {
        Storage {
            slots: [BLANK; 64],
            serials: [[0; 8]; 8],
        }
    }

    // The workspace of a sweep.
    fn workspace<'a>(&'a mut self, coins: &'a [u64]) -> Workspace<'a> {
        let Storage { slots, serials } = self;
        let lists = Lists {
            slots: SliceVec::new(slots),
            serials: SliceVec::new(serials),
        };
        Workspace::new(coins, BUDGET, lists)
    }
}

// No sweep draws the same coins as the one beside it.
fn run_both<L: Lending, R: Lending>(
    rt: &HostRuntime,
    left: &mut L,
    right: &mut R,
) -> anyhow::Result<()> {
    let (mut left_first, mut left_last) = (Storage::new(), Storage::new());
    let (mut right_first, mut right_last) = (Storage::new(), Storage::new());
    let first = left_first.workspace(&[0b1010, 0b1100]);
    let last = left_last.workspace(&[0b0011, 0b0101]);
    let left_workspaces: &mut [Workspace<'_>] = &mut [
        first,
        Workspace::bare(),
        Workspace::bare(),
        last,
    ];
    let first = right_first.workspace(&[0b0110, 0b1010]);
    let last = right_last.workspace(&[0b1001, 0b1010]);
    let right_workspaces: &mut [Workspace<'_>] = &mut [
        first,
        Workspace::bare(),
        Workspace::bare(),
        last,
    ];
    run(left, right, &CALLS, left_workspaces, right_workspaces)?;
    println!(rt; "a bench of four tags")?;
    show_all(rt, left_workspaces)?;
    println!(rt; "where each second lone reply is spoiled, a pair of one and three")?;
    show_all(rt, right_workspaces)?;
    let agree = agree(left, right);
    println!(rt; "tags agree: {}", if agree { "yes" } else { "no" })?;
    Ok(())
}

pub(crate) fn show(rt: &HostRuntime) -> anyhow::Result<()> {
    let mut table = crowd();
    let mut parted = crowd();
    let mut left = bench_over(&mut table)?;
    let below = pair_of(Single::new(parted[0]), bench_over(&mut parted[1..])?)?;
    let mut right = spoiler_of(below, 2)?;
    run_both(rt, &mut left, &mut right)
}
