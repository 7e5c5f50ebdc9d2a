// Answers questions about the chip, one to a line of standard input. About frames: `check BYTES`, `open BYTES`, `make
// CODE BYTES ROOM`. About one tag: `new MEMORY`, `locks LOCKS`, `set STATE FLAG COUNTER MARK PERMISSION`, `step COIN
// FRAME`, `gap MICROSECONDS`. The answers of another implementation are stored beside it, for comparison.
#![tactic(auto)]

mod frames;
mod showing;
mod tags;

use crate::frames::{answer_check, answer_make, answer_open};
use crate::tags::AskedTag;
use anyhow::Context;
use notation::line::Line;
use record::{MEMORY_LENGTH, Tag};
use std::io::{BufRead, BufReader};
use std::process::ExitCode;

const USAGE: &str = "usage: chip_cases < QUESTIONS
Answers questions about frames and about one tag, one to a line of standard input:
    check BYTES
    open BYTES
    make CODE BYTES ROOM
    new MEMORY
    locks LOCKS
    set STATE FLAG COUNTER MARK PERMISSION
    step COIN FRAME
    gap MICROSECONDS";

// What is told of a line that is none of them.
const QUESTIONS: &str =
    "no question: one begins with `check`, `open`, `make`, `new`, `locks`, `set`, `step` or `gap`";

// About frames, words are what stands between blanks of any kind. About a tag, the verb ends at the first space, and
// has words of its own behind it.
fn answer(asked: &mut AskedTag<'_>, line: &str) -> anyhow::Result<()> {
    let mut words = line.split_whitespace();
    // A match and no table of closures, since each verb has words of its own.
    match words.next() {
        Some("check") => answer_check(asked.rt, words),
        Some("open") => answer_open(asked.rt, words),
        Some("make") => answer_make(asked.rt, words),
        _ => {
            let (verb, rest) = line.split_once(' ').context(QUESTIONS)?;
            asked.answer(verb, rest)
        }
    }
}

fn run(rt: &HostRuntime) -> anyhow::Result<()> {
    let mut asked = AskedTag {
        rt,
        tag: Tag::new([0; MEMORY_LENGTH]),
    };
    let lines = BufReader::new(rt.alloc(), rt.stdin())?.lines(rt.alloc());
    for (number, line) in (1..).zip(lines) {
        answer(&mut asked, line?.as_str()).context(Line { number })?;
    }
    Ok(())
}

fn main(rt: HostRuntime) -> anyhow::Result<ExitCode> {
    if let Some(code) = usage::answer(&rt, USAGE)? {
        return Ok(code);
    }
    run(&rt)?;
    Ok(ExitCode::SUCCESS)
}
