// A first program: sweeps a bench of two tags and prints the sheet, and then does it again through a kind of field that
// this crate adds.
#![tactic(auto)]

mod counted;
mod sweeping;

use crate::counted::Counted;
use crate::sweeping::sweep_and_print;
use anyhow::Context;
use bench::bench::Bench;
use field::field::Field;
use notation::sample::{numbered_serial, numbered_tag};
use std::process::ExitCode;

const USAGE: &str = "usage: first_field
Sweeps a bench of two tags and prints the sheet, and then does it again through a kind of field of its own.";

// After a gap of so many microseconds each tag is READY again.
const GAP: u32 = 250;

fn run(rt: &HostRuntime) -> anyhow::Result<()> {
    let mut table = [numbered_tag(1), numbered_tag(2)];
    let mut bench = Bench::new();
    bench.set_table(&mut table).ok().context("too many tags")?;
    println!(rt; "a bench of two tags")?;
    sweep_and_print(rt, &mut bench)?;

    let mut counted = Counted::new(bench);
    counted.pass(GAP);
    println!(rt; "the same bench, counted")?;
    sweep_and_print(rt, &mut counted)?;
    println!(rt; "sends: {}", counted.sends())?;

    let bench = counted.into_inner();
    println!(rt; "place of number 2: {:?}", bench.find(&numbered_serial(2)))?;
    Ok(())
}

fn main(rt: HostRuntime) -> anyhow::Result<ExitCode> {
    if let Some(code) = usage::answer(&rt, USAGE)? {
        return Ok(code);
    }
    run(&rt)?;
    Ok(ExitCode::SUCCESS)
}
