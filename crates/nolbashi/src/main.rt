// Sweeps a bench of two new tags, and prints the sheet.
#![tactic(auto)]

use anyhow::Context;
use bench::bench::Bench;
use notation::sample::numbered_tag;
use slice_vec::vec::SliceVec;
use slot::listed::BLANK;
use slot::lists::Lists;
use std::io::Write;
use std::process::ExitCode;
use sweep::sweep;

const USAGE: &str = "usage: nolbashi
Sweeps a bench of two new tags, and prints the sheet.";

// How many commands the sweep may send.
const BUDGET: u16 = 100;

// The one recorded row: at each split the tag at place 1 waits.
const COINS: [u64; 1] = [2];

// How many bytes a sheet has room for.
const PAGE: usize = 4096;

fn run(rt: &HostRuntime) -> anyhow::Result<()> {
    let mut table = [numbered_tag(1), numbered_tag(2)];
    let mut bench = Bench::new();
    bench
        .set_table(&mut table)
        .ok()
        .context("too long a table")?;
    let mut slots = [BLANK; 64];
    let mut serials = [[0; 8]; 64];
    let mut lists = Lists {
        slots: SliceVec::new(&mut slots),
        serials: SliceVec::new(&mut serials),
    };
    let report = sweep(&mut bench, &COINS, BUDGET, &mut lists)?;
    let mut page = [0; PAGE];
    let length = sheet::write(
        lists.slots.as_slice(),
        lists.serials.as_slice(),
        &report,
        &mut page,
    )?;
    rt.stdout().write_all(&page[..length])?;
    Ok(())
}

fn main(rt: HostRuntime) -> anyhow::Result<ExitCode> {
    if let Some(code) = usage::answer(&rt, USAGE)? {
        return Ok(code);
    }
    run(&rt)?;
    Ok(ExitCode::SUCCESS)
}
