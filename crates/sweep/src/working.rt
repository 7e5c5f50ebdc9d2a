// Going through a sweep, slot by slot.
ghost use Rattle.std.specs.Prelude.{◌≤◌, length, IsTrue, IsFalse, OnOk};
ghost use Rattle.slice_vec.specs.Filling.{items_of};
ghost use Rattle.slot.specs.Calls.{setting, at_open_slot, Begins, Continues, BothBehind, IsWithin, counts_in};
ghost use Rattle.slot.specs.Calls.{is_recorded};
ghost use Rattle.slot.specs.Slots.{progress_of};
ghost use Rattle.sweep.specs.Working.{position_gone_on, position_worked, is_refused, Tallied, HasSent};

use field::field::Field;
use slot::counts::Counts;
use slot::kinds::{Continuation, Slot, Unsplit};
use slot::lists::Lists;
use slot::working::open;

// Works all slots of a sweep, from SELECT to its end.
pub(crate) fn work<F: Field>(
    field: &mut F,
    coins: &[u64],
    budget: u16,
    lists: &mut Lists<'_>,
) -> Result<Counts, Unsplit>
    requires { IsTrue (is_recorded coins.now) }
    ensures rule { Begins F.Field (setting coins.now budget lists.old) (position_worked result)
        field.old field.new lists.new }
    ensures behind { BothBehind lists.old lists.new }
    ensures tally { Tallied (counts_in (position_worked result)) (items_of lists.new.slots) }
    ensures stopped { IsFalse (is_refused result) }
{
    let mut slot = open(field, budget, lists)?;
    loop {
        match work_slot(slot, field, coins, lists)? {
            Continuation::Next(next) => slot = next,
            Continuation::Whole(counts) => return Ok(counts),
        }
    }
}

// Works the slot that is open, and opens the next one: splits a clash, reads a lone tag and leaves, or leaves.
fn work_slot<F: Field>(
    slot: Slot,
    field: &mut F,
    coins: &[u64],
    lists: &mut Lists<'_>,
) -> Result<Continuation, Unsplit>
    requires { IsTrue (is_recorded coins.now) }
    ensures rule { Continues F.Field coins.now (at_open_slot slot) (position_gone_on result)
        field.old field.new lists.old lists.new }
    ensures behind { BothBehind lists.old lists.new }
    ensures within { OnOk result (IsWithin (progress_of slot).budget (position_gone_on result)) }
    ensures sent { OnOk result (HasSent (progress_of slot).counts.commands (position_gone_on result)) }
    ensures tally { Tallied (progress_of slot).counts (items_of lists.old.slots)
        → length (items_of lists.new.slots) ≤ 65535
        → Tallied (counts_in (position_gone_on result)) (items_of lists.new.slots) }
    ensures stopped { IsFalse (is_refused result) }
{
    match slot {
        Slot::Silent(silent) => Ok(silent.leave(field, lists)?),
        Slot::Lone(lone) => Ok(lone.read(field, lists)?.leave(field, lists)?),
        Slot::Clash(clash) => Ok(Continuation::Next(clash.split(field, coins, lists)?)),
    }
}
