// What the lists of a case's sweeps are kept in, and the sweeps.
use crate::reading::read_row;
use crate::showing::{Fingerprint, of_tags};
use anyhow::Context;
use field::hearing::Hearing;
use field::lending::Lending;
use notation::words::word;
use protocol::command::Command;
use record::Serial;
use slice_vec::vec::SliceVec;
use slot::ending::Report;
use slot::listed::ListedSlot;
use slot::lists::Lists;
use std::alloc::Global;
use std::str;
use sweep::sweep;

// How many entries there are, and what they hold at first.
const SLOTS: usize = 400;

const SERIALS: usize = 80;

const UNUSED: ListedSlot = ListedSlot {
    command: Command::Repeat,
    hearing: Hearing::Clash,
    waiting: 0xa5,
};

// How many bytes a sheet has room for.
const PAGE: usize = 16384;

/// What the two lists of a sweep are kept in.
#[derive(Drop)]
pub struct Storage {
    slots: [ListedSlot; SLOTS],
    serials: [Serial; SERIALS],
}

// How a field is to be swept, by the words BUDGET SLOTS SERIALS ROW...
#[derive(Drop)]
struct SweepQuestion {
    budget: u16,
    slots: usize,
    serials: usize,
    coins: Vec<u64>,
}

impl SweepQuestion {
    fn read(heap: Global, text: &str) -> anyhow::Result<SweepQuestion> {
        let mut words = text.split_whitespace();
        Ok(SweepQuestion {
            budget: word(words.next())?.parse::<u16>()?,
            slots: word(words.next())?.parse::<usize>()?,
            serials: word(words.next())?.parse::<usize>()?,
            coins: words.map(read_row).try_collect(heap)?,
        })
    }
}

impl Storage {
    pub(crate) fn new() -> Storage {
        Storage {
            slots: [UNUSED; SLOTS],
            serials: [[0xa5; 8]; SERIALS],
        }
    }

    // Sweeps a field, and prints the sheet or the refusal, and what tags and storage then hold.
    pub(crate) fn sweep<F: Lending>(
        &mut self,
        rt: &HostRuntime,
        field: &mut F,
        text: &str,
    ) -> anyhow::Result<()> {
        let order = SweepQuestion::read(rt.alloc(), text)?;
        let slots = self.slots.get_mut(..order.slots);
        let serials = self.serials.get_mut(..order.serials);
        let mut lists = Lists {
            slots: SliceVec::new(slots.context("too many slots")?),
            serials: SliceVec::new(serials.context("too many serial numbers")?),
        };
        let swept = sweep(field, order.coins.as_slice(), order.budget, &mut lists);
        match swept {
            Ok(report) => {
                show(rt, &lists, &report)?;
                print!(rt; "swept")?;
            }
            Err(refusal) => print!(rt; "refused {}", refusal.number())?,
        }
        println!(rt;
            " {} {} {}",
            of_tags(field),
            self.of_slots(),
            self.of_serials()
        )?;
        Ok(())
    }

    // Of all entries, those behind the lists too.
    fn of_slots(&self) -> Fingerprint {
        self.slots.iter().fold(Fingerprint::new(), |value, row| {
            value
                .with(row.command.code())
                .with(row.hearing.number())
                .with(row.waiting)
        })
    }

    fn of_serials(&self) -> Fingerprint {
        self.serials.iter().fold(Fingerprint::new(), |value, serial| value.with_bytes(serial))
    }
}

// Prints the sheet of a sweep.
fn show(rt: &HostRuntime, lists: &Lists<'_>, report: &Report) -> anyhow::Result<()> {
    let mut page = [0; PAGE];
    let length = sheet::write(
        lists.slots.as_slice(),
        lists.serials.as_slice(),
        report,
        &mut page,
    )?;
    print!(rt; "{}", str::from_utf8(&page[..length])?)?;
    Ok(())
}
