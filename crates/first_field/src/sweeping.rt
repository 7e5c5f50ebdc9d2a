// A whole sweep of a field of any kind, and its sheet on standard output.
use field::field::Field;
use slice_vec::vec::SliceVec;
use slot::ending::Report;
use slot::listed::BLANK;
use slot::lists::Lists;
use std::io::Write;
use sweep::sweep;

// How many commands a sweep may send.
const BUDGET: u16 = 100;

// The recorded rows of coins: at each split the tag at place 1 waits.
const COINS: [u64; 1] = [0b10];

// How many bytes a sheet has room for.
const PAGE: usize = 4096;

fn print_sheet(rt: &HostRuntime, lists: &Lists<'_>, report: &Report) -> anyhow::Result<()> {
    let Lists { slots, serials } = lists;
    let mut page = [0; PAGE];
    let length = sheet::write(slots.as_slice(), serials.as_slice(), report, &mut page)?;
    rt.stdout().write_all(&page[..length])?;
    Ok(())
}

pub(crate) fn sweep_and_print<F: Field>(rt: &HostRuntime, field: &mut F) -> anyhow::Result<()> {
    let mut slots = [BLANK; 64];
    let mut serials = [[0; 8]; 64];
    let mut lists = Lists {
        slots: SliceVec::new(&mut slots),
        serials: SliceVec::new(&mut serials),
    };
    let report = sweep(field, &COINS, BUDGET, &mut lists)?;
    print_sheet(rt, &lists, &report)
}
