// What calls have come to, on standard output.
use anyhow::Context;
use history::workspace::{Answer, Workspace};
use slot::ending::Report;
use slot::lists::Lists;
use std::str;

// How many bytes a sheet has room for.
const PAGE: usize = 4096;

fn show_sheet(rt: &HostRuntime, lists: &Lists<'_>, report: &Report) -> anyhow::Result<()> {
    let mut page = [0; PAGE];
    let length = sheet::write(
        lists.slots.as_slice(),
        lists.serials.as_slice(),
        report,
        &mut page,
    )?;
    print!(rt; "{}", str::from_utf8(&page[..length])?)?;
    Ok(())
}

// The sheet of a sweep, and a line of any other call.
fn show(rt: &HostRuntime, workspace: &Workspace<'_>) -> anyhow::Result<()> {
    match workspace.answer.context("no answer")? {
        Answer::Refused(refusal) => println!(rt; "refused: {refusal}")?,
        Answer::Heard(hearing) => println!(rt; "{hearing}")?,
        Answer::Passed => println!(rt; "passed")?,
        Answer::Swept(report) => show_sheet(rt, &workspace.lists, &report)?,
    }
    Ok(())
}

pub(crate) fn show_all(rt: &HostRuntime, workspaces: &[Workspace<'_>]) -> anyhow::Result<()> {
    for workspace in workspaces {
        show(rt, workspace)?;
    }
    Ok(())
}
