// Many whole sweeps of a full bench. Each is of 64 new tags, by a list of 64 random rows of its own.
use crate::random::Random;
use crate::total::Total;
use anyhow::Context;
use bench::bench::Bench;
use notation::sample::numbered_tag;
use record::Serial;
use slice_vec::vec::SliceVec;
use slot::ending::Report;
use slot::listed::{BLANK, ListedSlot};
use slot::lists::Lists;
use std::array;
use sweep::sweep;

// What the generator begins with.
const SEED: u64 = 1;

// How many commands a sweep may send, and how many slots it may list: more than 64 tags take.
const BUDGET: u16 = 2000;

const SLOTS: usize = 1000;

// What all sweeps fill anew.
#[derive(Drop)]
struct Storage {
    slots: [ListedSlot; SLOTS],
    serials: [Serial; 64],
}

// Sweeps 64 new tags, whose serial numbers differ in their last byte, by a list of rows.
fn sweep_new(coins: &[u64], storage: &mut Storage) -> anyhow::Result<Report> {
    let mut table = array::from_fn::<_, 64, _>(|place| numbered_tag(place as u8));
    let mut bench = Bench::new();
    bench
        .set_table(&mut table)
        .ok()
        .context("too long a table")?;
    let mut lists = Lists {
        slots: SliceVec::new(&mut storage.slots),
        serials: SliceVec::new(&mut storage.serials),
    };
    Ok(sweep(&mut bench, coins, BUDGET, &mut lists)?)
}

// Sweeps so many times, each time by the next 64 words of the generator.
pub(crate) fn run(sweeps: usize) -> anyhow::Result<Total> {
    let mut random = Random::new(SEED);
    let mut storage = Storage {
        slots: [BLANK; SLOTS],
        serials: [[0; 8]; 64],
    };
    let mut total = Total::default();
    for _ in 0..sweeps {
        let coins = array::from_fn::<_, 64, _>(|_| random.word());
        total.take(sweep_new(&coins, &mut storage)?);
    }
    Ok(total)
}
