// Fields of different kinds over four tags: what each hears of the same frames, and one list of calls that two of them
// are given.
#![tactic(auto)]

mod building;
mod heard;
mod hearings;
mod showing;
mod transmissions;
mod twins;

use std::process::ExitCode;

const USAGE: &str = "usage: field_kinds
Prints what fields of different kinds hear of the same frames, and what one list of calls comes to on two of them.";

fn run(rt: &HostRuntime) -> anyhow::Result<()> {
    hearings::show(rt)?;
    println!(rt; "")?;
    twins::show(rt)
}

fn main(rt: HostRuntime) -> anyhow::Result<ExitCode> {
    if let Some(code) = usage::answer(&rt, USAGE)? {
        return Ok(code);
    }
    run(&rt)?;
    Ok(ExitCode::SUCCESS)
}
