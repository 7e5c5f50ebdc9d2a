// How a sweep ends.
ghost use Rattle.std.specs.Prelude.{◌≡◌, Some};
ghost use Rattle.slot.specs.declared.ending.End.TheVariants as end;
ghost use Rattle.slot.specs.Counts.{stop_number, end_number, stop_name};

use crate::counts::Counts;
use std::fmt;

/// What stops a sweep, by its number.
#[derive(Clone, Copy, PartialEq, Eq, Debug)]
pub enum Stop {
    /// A clash where 255 groups wait.
    Deep = 7,
    /// The budget of commands is spent.
    Spent = 8,
    /// A list is full.
    Full = 9,
}

impl Stop {
    /// The number by which the stop is known outside.
    pub fn number(self) -> u8
        ensures { result ≡ stop_number self }
    {
        self as u8
    }
}

impl fmt::Display for Stop {
    ghost output = { λ stop. Some (stop_name stop) };

    fn fmt<W: fmt::Write>(&self, f: &mut fmt::Formatter<W>) -> fmt::Result {
        f.pad(match self {
            Stop::Deep => "deep",
            Stop::Spent => "spent",
            Stop::Full => "full",
        })
    }
}

/// A sweep that is stopped, and what it has counted.
#[derive(Clone, Copy, PartialEq, Eq, Debug)]
pub struct Stopped {
    pub stop: Stop,
    pub counts: Counts,
}

/// How a sweep has ended: whole, or stopped. docs/sweeps.md has the numbers.
#[derive(Clone, Copy, PartialEq, Eq, Debug)]
pub enum End {
    Whole,
    Stopped(Stop),
}

impl End {
    /// The number by which the end is known outside: 0 for a whole sweep.
    pub fn number(self) -> u8
        ensures { result ≡ end_number self }
    {
        match self {
            End::Whole => 0,
            End::Stopped(stop) => stop.number(),
        }
    }
}

/// What a sweep reports beside its lists.
#[derive(Clone, Copy, PartialEq, Eq, Debug)]
pub struct Report {
    pub end: End,
    pub counts: Counts,
}

impl From<Stopped> for Report {
    ghost from_gives = { λ stopped report.
        report ≡ record { end = end.Stopped stopped.stop; counts = stopped.counts } };

    fn from(stopped: Stopped) -> Report {
        Report {
            end: End::Stopped(stopped.stop),
            counts: stopped.counts,
        }
    }
}
