// The printed sheet of a sweep.
#![tactic(auto)]

ghost use Rattle.std.specs.Prelude.{◌≡◌, ◌≤◌, length};
ghost use Rattle.frame.specs.Makings.{made, result_of, buffer_after, writing};
ghost use Rattle.protocol.specs.Refusals.{wrote, write_result};
ghost use Rattle.sheet.specs.Readings.{LinesReadBack};
ghost use Rattle.sheet.specs.Sheets.{sheet};

mod front;
mod paper;
mod printing;
mod room;

use crate::printing::print;
use crate::room::Room;
use protocol::refusal::Refusal;
use record::Serial;
use slice_vec::vec::SliceVec;
use slot::ending::Report;
use slot::listed::ListedSlot;

/// Writes the sheet at the front of a buffer, and tells its length. Its lines and columns are in docs/sweeps.md.
#[tactic(auto, using(crate::proofs::Readings::lines_read_back))]
pub fn write(
    slots: &[ListedSlot],
    serials: &[Serial],
    report: &Report,
    buffer: &mut [u8],
) -> Result<usize, Refusal>
    ensures answer { write_result result
        ≡ result_of (writing (sheet slots.now serials.now report.now) (length buffer.old)) }
    ensures buffer { buffer.new
        ≡ buffer_after (writing (sheet slots.now serials.now report.now) (length buffer.old)) buffer.old }
    ensures lines { LinesReadBack }
{
    // A buffer that is too short is refused before anything is written into it.
    print(&mut Room::new(buffer.len()), slots, serials, report)?;
    lay(slots, serials, report, buffer)
}

// Writes the sheet into a buffer that has room for it.
fn lay(
    slots: &[ListedSlot],
    serials: &[Serial],
    report: &Report,
    buffer: &mut [u8],
) -> Result<usize, Refusal>
    requires { length (sheet slots.now serials.now report.now) ≤ length buffer.old }
    ensures answer { write_result result ≡ wrote (length (sheet slots.now serials.now report.now)) }
    ensures buffer { buffer.new ≡ buffer_after (made (sheet slots.now serials.now report.now)) buffer.old }
{
    let mut front = SliceVec::new(buffer);
    print(&mut front, slots, serials, report)?;
    Ok(front.len())
}
