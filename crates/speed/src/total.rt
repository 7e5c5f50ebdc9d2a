// What came of all the sweeps.
use slot::counts::Counts;
use slot::ending::{End, Report};
use std::fmt;

#[derive(Clone, Copy, Default)]
pub(crate) struct Total {
    sweeps: u64,
    whole: u64,
    lone: u64,
    silent: u64,
    clash: u64,
    commands: u64,
}

impl Total {
    pub(crate) fn take(&mut self, report: Report) {
        let Report { end, counts } = report;
        let Counts {
            lone,
            silent,
            clash,
            commands,
        } = counts;
        add(&mut self.sweeps, 1);
        add(&mut self.whole, u16::from(end == End::Whole));
        add(&mut self.lone, lone);
        add(&mut self.silent, silent);
        add(&mut self.clash, clash);
        add(&mut self.commands, commands);
    }
}

fn add(sum: &mut u64, count: u16) {
    *sum = sum.saturating_add(u64::from(count));
}

impl fmt::Display for Total {
    fn fmt<W: fmt::Write>(&self, f: &mut fmt::Formatter<W>) -> fmt::Result {
        let Total {
            sweeps,
            whole,
            lone,
            silent,
            clash,
            commands,
        } = *self;
        write!(
            f,
            "{sweeps} sweeps: {whole} whole, {lone} lone, {silent} silent, {clash} clash, {commands} commands"
        )
    }
}
