// Goes through a sweep of two tags slot by slot, and prints what is listed and counted.
#![tactic(auto)]

use bench::bench::Bench;
use field::field::Field;
use record::{MEMORY_LENGTH, Serial, Tag};
use slice_vec::vec::SliceVec;
use slot::counts::Counts;
use slot::kinds::{Continuation, Slot, Unsplit};
use slot::listed::BLANK;
use slot::lists::Lists;
use slot::working::open;
use std::io;
use std::process::ExitCode;

const USAGE: &str = "usage: slot_by_slot
Goes through a sweep of two tags slot by slot, and prints what is listed and counted.";

// The row in which the second tag lets the first go before.
const COINS: [u64; 1] = [2];

// More slots than two tags take.
const SLOTS: usize = 8;

fn new_tag(number: u8) -> Tag {
    let mut memory = [0; MEMORY_LENGTH];
    memory[..8].copy_from_slice(&[0xef, 0x04, 0x02, 0, 0, 0, 0, number]);
    Tag::new(memory)
}

// Ends a slot, each kind in its way, and opens the next.
fn work_slot<F: Field>(
    slot: Slot,
    field: &mut F,
    lists: &mut Lists<'_>,
) -> Result<Continuation, Unsplit> {
    match slot {
        Slot::Silent(slot) => Ok(slot.leave(field, lists)?),
        Slot::Lone(slot) => Ok(slot.read(field, lists)?.leave(field, lists)?),
        Slot::Clash(slot) => Ok(Continuation::Next(slot.split(field, &COINS, lists)?)),
    }
}

// Ends the sweep with an open slot: the serial number of the tag that then waits to be read.
fn give_up(slot: Slot) -> Option<Serial> {
    match slot {
        Slot::Lone(slot) => Some(slot.give_up().serial),
        Slot::Silent(_) | Slot::Clash(_) => None,
    }
}

// The whole sweep, if it does not stop.
fn work<F: Field>(field: &mut F, lists: &mut Lists<'_>) -> Result<Option<Counts>, Unsplit> {
    let mut slot = open(field, 100, lists)?;
    for _ in 0..SLOTS {
        slot = match work_slot(slot, field, lists)? {
            Continuation::Next(next) => next,
            Continuation::Whole(counts) => return Ok(Some(counts)),
        };
    }
    let _ = give_up(slot);
    Ok(None)
}

fn print_lists(rt: &HostRuntime, lists: &Lists<'_>) -> io::Result<()> {
    for row in lists.slots.as_slice() {
        println!(rt;
            "{}: {}, {} groups wait",
            row.command.name(),
            row.hearing,
            row.waiting
        )?;
    }
    for serial in lists.serials.as_slice() {
        println!(rt; "read: {serial:?}")?;
    }
    Ok(())
}

fn run(rt: &HostRuntime) -> io::Result<()> {
    let mut table = [new_tag(1), new_tag(2)];
    let (mut slots, mut serials) = ([BLANK; SLOTS], [[0; 8]; 2]);
    let mut lists = Lists {
        slots: SliceVec::new(&mut slots),
        serials: SliceVec::new(&mut serials),
    };
    let mut bench = Bench::new();
    let _ = bench.set_table(&mut table);
    let result = work(&mut bench, &mut lists);
    print_lists(rt, &lists)?;
    match result {
        Ok(Some(counts)) => println!(rt;
            "whole: {} lone slots, {} silent, {} clash, {} commands",
            counts.lone, counts.silent, counts.clash, counts.commands
        ),
        Ok(None) | Err(_) => println!(rt; "not whole"),
    }
}

fn main(rt: HostRuntime) -> io::Result<ExitCode> {
    if let Some(code) = usage::answer(&rt, USAGE)? {
        return Ok(code);
    }
    run(&rt)?;
    Ok(ExitCode::SUCCESS)
}
