// Printing the lines of a sheet.
ghost use Rattle.std.specs.Prelude.{◌≡◌};
ghost use Rattle.sheet.specs.Papers.{Printed};
ghost use Rattle.sheet.specs.Sheets.{sheet, slot_line, slot_lines, serial_line, serial_lines, last_line};

use crate::paper::Paper;
use protocol::refusal::Refusal;
use record::Serial;
use slot::ending::Report;
use slot::listed::ListedSlot;

// How wide a column of numbers is, and one of bytes.
const NUMBER_WIDTH: usize = 6;

const BYTE_WIDTH: usize = 4;

// Prints the whole sheet.
pub(crate) fn print<P: Paper>(
    paper: &mut P,
    slots: &[ListedSlot],
    serials: &[Serial],
    report: &Report,
) -> Result<(), Refusal>
    ensures { Printed P.room P.Shows (sheet slots.now serials.now report.now) paper.old paper.new result }
{
    print_slots(paper, slots)?;
    print_serials(paper, serials)?;
    print_report(paper, report)
}

// Prints a line for each slot, which are numbered from 1.
fn print_slots<P: Paper>(paper: &mut P, slots: &[ListedSlot]) -> Result<(), Refusal>
    ensures { Printed P.room P.Shows (slot_lines 1 slots.now) paper.old paper.new result }
{
    for (place, slot) in slots.iter().enumerate() {
        print_slot(paper, place as u64 + 1, slot)?;
    }
    Ok(())
}

fn print_slot<P: Paper>(paper: &mut P, number: u64, slot: &ListedSlot) -> Result<(), Refusal>
    ensures { Printed P.room P.Shows (slot_line number slot.now) paper.old paper.new result }
{
    let numbers = [
        number,
        u64::from(slot.command.code()),
        u64::from(slot.hearing.number()),
        u64::from(slot.waiting),
    ];
    paper.line(NUMBER_WIDTH, &numbers)
}

// Prints a line for each serial number.
fn print_serials<P: Paper>(paper: &mut P, serials: &[Serial]) -> Result<(), Refusal>
    ensures { Printed P.room P.Shows (serial_lines serials.now) paper.old paper.new result }
{
    for serial in serials {
        print_serial(paper, serial)?;
    }
    Ok(())
}

fn print_serial<P: Paper>(paper: &mut P, serial: &Serial) -> Result<(), Refusal>
    ensures { Printed P.room P.Shows (serial_line serial.now) paper.old paper.new result }
{
    paper.line(BYTE_WIDTH, &serial.map(u64::from))
}

fn print_report<P: Paper>(paper: &mut P, report: &Report) -> Result<(), Refusal>
    ensures { Printed P.room P.Shows (last_line report.now) paper.old paper.new result }
{
    let counts = report.counts;
    let numbers = [
        u64::from(report.end.number()),
        u64::from(counts.lone),
        u64::from(counts.silent),
        u64::from(counts.clash),
        u64::from(counts.commands),
    ];
    paper.line(NUMBER_WIDTH, &numbers)
}
