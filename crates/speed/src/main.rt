// Many sends to 64 tags, or whole sweeps of them, for a clock outside to time. The second implementation takes the
// words for a bench too, and prints the same lines.
#![tactic(auto)]

mod load;
mod race;
mod random;
mod sends;
mod sweeps;
mod tally;
mod total;

use crate::race::Race;
use std::env;
use std::process::ExitCode;

const USAGE: &str = "usage: speed KIND NUMBER [KIND NUMBER]...
Does so much work of each kind, one after the other, and prints what came of it:
    query         so many QUERYs to a bench of 64 tags
    read          so many READs of one of them after the other
    paired-query  so many QUERYs to a pair of two benches of 32
    paired-read   so many READs to such a pair
    sweeps        so many sweeps of a bench of 64 new tags";

fn run(rt: &HostRuntime, words: &[String]) -> anyhow::Result<ExitCode> {
    for pair in words.chunks(2) {
        match Race::read(pair) {
            Ok(race) => race.run(rt)?,
            Err(fault) => return Ok(usage::refuse(rt, fault.problem, fault.word, USAGE)?),
        }
    }
    Ok(ExitCode::SUCCESS)
}

fn main(rt: HostRuntime) -> anyhow::Result<ExitCode> {
    let words: Vec<String> = env::args(&rt)?.skip(1).collect(rt.alloc())?;
    match words.as_slice() {
        [] => Ok(usage::refuse(&rt, "missing words", "KIND NUMBER", USAGE)?),
        [word, ..] if word.as_str() == "--help" => Ok(usage::help(&rt, USAGE)?),
        words => run(&rt, words),
    }
}
