// Answers questions about fields and sweeps of them, one to a line of standard input, in cases: `tag STATE FLAG
// COUNTER MARK PERMISSION LOCKS MEMORY` and `find SERIAL` about a table, then `field NESTING` over it, then `send ROW
// ROOM FRAME`, `gap MICROSECONDS` and `sweep BUDGET SLOTS SERIALS ROW...` to that field, then `end`. A sweep is lent
// so many rows of each list's storage, and rows of coins. The answers of another implementation are stored beside it,
// for comparison.
#![tactic(auto)]

mod asking;
mod building;
mod cases;
mod nesting;
mod reading;
mod showing;
mod storage;
mod worked;

use crate::cases::answer_cases;
use std::process::ExitCode;

const USAGE: &str = "usage: field_cases < QUESTIONS
Answers questions about fields and sweeps of them, one to a line of standard input, in cases:
    tag STATE FLAG COUNTER MARK PERMISSION LOCKS MEMORY
    find SERIAL
    field NESTING, which is bench PLACES, single, pair LEFT RIGHT or spoiler PERIOD BELOW
    send ROW ROOM FRAME
    gap MICROSECONDS
    sweep BUDGET SLOTS SERIALS ROW...
    end";

fn main(rt: HostRuntime) -> anyhow::Result<ExitCode> {
    if let Some(code) = usage::answer(&rt, USAGE)? {
        return Ok(code);
    }
    answer_cases(&rt)?;
    Ok(ExitCode::SUCCESS)
}
