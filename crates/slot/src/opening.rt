// Sending a command that opens a slot.
ghost use Rattle.std.specs.Prelude.{◌≡◌, ℕ, ◌+◌, ◌%◌, ◌<◌, [], ◌∷◌, ◌++◌, length, nat_le, IsFalse};
ghost use Rattle.frame.specs.Openings.{opening};
ghost use Rattle.field.specs.Promises.{AfterSend};
ghost use Rattle.field.specs.Sends.{on_air};
ghost use Rattle.protocol.specs.Commands.{length_of};
ghost use Rattle.slice_vec.specs.Filling.{items_of, is_full, Behind};
ghost use Rattle.slot.specs.Commands.{frame_of, wanted};
ghost use Rattle.slot.specs.Counts.{with_slot};
ghost use Rattle.slot.specs.Rules.{coins_at, opened_by};
ghost use Rattle.slot.specs.Slots.{heard_in, phase_of, phase_with, progress_of, progress_with, MayOpen};

use crate::asking::{Received, ask};
use crate::ending::{Stop, Stopped};
use crate::kinds::{ClashSlot, LoneSlot, Progress, SilentSlot, Slot};
use crate::listed::ListedSlot;
use crate::lists::Lists;
use field::field::Field;
use field::hearing::Hearing;
use protocol::command::{Command, OWN};

impl Progress {
    pub(crate) fn is_spent(self) -> bool
        ensures test { result ≡ nat_le self.budget self.counts.commands }
        ensures room { IsFalse result → self.counts.commands < 65535 }
    {
        self.counts.commands >= self.budget
    }

    pub(crate) fn stopped(self, stop: Stop) -> Stopped
        ensures { result ≡ record { stop = stop; counts = self.counts } }
    {
        Stopped {
            stop,
            counts: self.counts,
        }
    }

    // The slot of an answer.
    fn opened(self, answer: Received) -> Slot
        requires { self.counts.commands < 65535 }
        ensures hearing { heard_in result ≡ answer.hearing }
        ensures phase { phase_of result ≡ phase_with answer.hearing answer.serial }
        ensures progress { progress_of result ≡
            progress_with self.budget self.waiting self.next (with_slot answer.hearing self.counts) }
    {
        let Received { hearing, serial } = answer;
        let progress = Progress {
            counts: self.counts.with_slot(hearing),
            ..self
        };
        match hearing {
            Hearing::Silence => Slot::Silent(SilentSlot { progress }),
            Hearing::Lone => Slot::Lone(LoneSlot { progress, serial }),
            Hearing::Clash => Slot::Clash(ClashSlot { progress }),
        }
    }
}

// Sends SELECT for the chip's own tags, and opens its slot.
pub(crate) fn select<F: Field>(
    field: &mut F,
    progress: Progress,
    lists: &mut Lists<'_>,
) -> Result<Slot, Stopped>
    ensures { MayOpen F.Field Command.Select (frame_of Command.Select wanted) 0 progress
        lists.old lists.new field.old field.new result }
{
    open_slot(field, Command::Select, &OWN, 0, progress, lists)
}

// Sends QUERY with a row of coins, and opens its slot.
pub(crate) fn query<F: Field>(
    field: &mut F,
    row: u64,
    progress: Progress,
    lists: &mut Lists<'_>,
) -> Result<Slot, Stopped>
    ensures { MayOpen F.Field Command.Query (frame_of Command.Query []) row progress
        lists.old lists.new field.old field.new result }
{
    open_slot(field, Command::Query, &[], row, progress, lists)
}

// Sends SCROLL, and opens its slot.
pub(crate) fn scroll<F: Field>(
    field: &mut F,
    progress: Progress,
    lists: &mut Lists<'_>,
) -> Result<Slot, Stopped>
    ensures { MayOpen F.Field Command.Scroll (frame_of Command.Scroll []) 0 progress
        lists.old lists.new field.old field.new result }
{
    open_slot(field, Command::Scroll, &[], 0, progress, lists)
}

// The row of coins at a place, where behind the last comes the first.
pub(crate) fn coins_at(coins: &[u64], place: usize) -> u64
    requires { 0 < length coins.now }
    ensures { result ≡ coins_at coins.now place }
{
    coins[place % coins.len()]
}

// Sends a command with parameters that fit it, and lists and opens its slot, unless the budget is spent or the list of
// slots full.
fn open_slot<F: Field>(
    field: &mut F,
    command: Command,
    parameters: &[u8],
    row: u64,
    progress: Progress,
    lists: &mut Lists<'_>,
) -> Result<Slot, Stopped>
    requires { length parameters.now + 3 ≡ length_of command }
    ensures { MayOpen F.Field command (frame_of command parameters.now) row progress
        lists.old lists.new field.old field.new result }
{
    if progress.is_spent() {
        return Err(progress.stopped(Stop::Spent));
    }
    if lists.slots.is_full() {
        return Err(progress.stopped(Stop::Full));
    }
    Ok(hear_slot(field, command, parameters, row, progress, lists))
}

// The same, where neither is so. What it owes stands fact by fact, so that a wrong body shows which it breaks.
fn hear_slot<F: Field>(
    field: &mut F,
    command: Command,
    parameters: &[u8],
    row: u64,
    progress: Progress,
    lists: &mut Lists<'_>,
) -> Slot
    requires fits { length parameters.now + 3 ≡ length_of command }
    requires budget { progress.counts.commands < 65535 }
    requires room { IsFalse (is_full lists.old.slots) }
    ensures sent { AfterSend F.Field (frame_of command parameters.now) row
        (heard_in result) field.old field.new }
    ensures phase { phase_of result ≡ opened_by
        (heard_in result) (on_air (opening (frame_of command parameters.now)) row (F.tags field.old)) }
    ensures progress { progress_of result ≡
        progress_with progress.budget progress.waiting progress.next (with_slot (heard_in result) progress.counts) }
    ensures slots { items_of lists.new.slots ≡ items_of lists.old.slots
        ++ record { command = command; hearing = heard_in result; waiting = progress.waiting } ∷ [] }
    ensures behind { Behind lists.old.slots lists.new.slots }
    ensures serials { lists.new.serials ≡ lists.old.serials }
{
    let answer = ask(field, command, parameters, row);
    let _ = lists.slots.push(ListedSlot {
        command,
        hearing: answer.hearing,
        waiting: progress.waiting,
    });
    progress.opened(answer)
}
