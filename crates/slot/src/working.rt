// Working a sweep slot by slot.
ghost use Rattle.std.specs.Prelude.{◌≡◌, ℕ, ◌<◌, if◌then◌else◌, List, [], length, Some, None};
ghost use Rattle.std.specs.Prelude.{IsFalse, IfOk, IfErr, OnOk};
ghost use Rattle.protocol.specs.declared.command.Command.TheVariants as command;
ghost use Rattle.slice_vec.specs.Filling.{items_of, is_full, with_item};
ghost use Rattle.slot.specs.Calls.{setting, at_slot, at_silent, at_lone, at_clash, serial_heard, budget_in, counts_in};
ghost use Rattle.slot.specs.Calls.{position_opened, position_split, position_read, position_after};
ghost use Rattle.slot.specs.Calls.{position_closed, Begins, Continues};
ghost use Rattle.slot.specs.Calls.{counts_opened, counts_after, counts_closed, counts_read, no_counts};
ghost use Rattle.slot.specs.Calls.{slots_opened, slots_after, BothBehind, IsWithin, handed_back, is_recorded};
ghost use Rattle.slot.specs.Calls.{at_unread, split_refusal};
ghost use Rattle.slot.specs.Counts.{stop_number};
ghost use Rattle.slot.specs.Rules.{in_silence, in_clash, in_reading};
ghost use Rattle.slot.specs.Slots.{progress_with};

use crate::asking::{read, repeat};
use crate::counts::Counts;
use crate::ending::{Stop, Stopped};
use crate::kinds::{
    ClashSlot, Continuation, GivenUp, LoneSlot, Progress, SilentSlot, Slot, Unsplit,
};
use crate::lists::Lists;
use crate::opening::{coins_at, query, scroll, select};
use field::declined::Declined;
use field::field::Field;
use field::hearing::Hearing;
use protocol::refusal::Refusal;

/// How many recorded rows of coins there can be.
pub const MOST_ROWS: usize = 64;

/// Whether there are rows of coins to draw, and no more than there can be.
pub fn is_recorded(coins: &[u64]) -> bool
    ensures { result ≡ is_recorded coins.now }
{
    !coins.is_empty() && coins.len() <= MOST_ROWS
}

/// Begins a sweep: empties the lists, and sends SELECT. The reader's rule is in docs/sweeps.md.
pub fn open<F: Field>(field: &mut F, budget: u16, lists: &mut Lists<'_>) -> Result<Slot, Stopped>
    ensures rule { (coins : List ℕ) →
        Begins F.Field (setting coins budget lists.old) (position_opened result) field.old field.new lists.new }
    ensures behind { BothBehind lists.old lists.new }
    ensures counts { counts_in (position_opened result) ≡ counts_opened no_counts result }
    ensures within { OnOk result (IsWithin budget (position_opened result)) }
    ensures slots { items_of lists.new.slots ≡ slots_opened command.Select [] result }
    ensures serials { items_of lists.new.serials ≡ [] }
{
    lists.slots.clear();
    lists.serials.clear();
    let progress = Progress {
        budget,
        waiting: 0,
        next: 0,
        counts: Counts::new(),
    };
    select(field, progress, lists)
}

impl ClashSlot {
    /// Draws a row of coins and sends QUERY: each tag in turn waits for the next slots if its coin is 1.
    pub fn split<F: Field>(
        self,
        field: &mut F,
        coins: &[u64],
        lists: &mut Lists<'_>,
    ) -> Result<Slot, Unsplit>
        ensures refusal { split_refusal result ≡ (if is_recorded coins.now then None else Some 10) }
        ensures rule { Continues F.Field coins.now
            (at_clash self) (position_split result) field.old field.new lists.old lists.new }
        ensures behind { BothBehind lists.old lists.new }
        ensures counts { counts_in (position_split result) ≡ counts_opened (counts_in (at_clash self)) result }
        ensures within { OnOk result (IsWithin (budget_in (at_clash self)) (position_split result)) }
        ensures slots { items_of lists.new.slots ≡ slots_opened command.Query (items_of lists.old.slots) result }
        ensures serials { lists.new.serials ≡ lists.old.serials }
        ensures back { handed_back result self field.old field.new lists.old lists.new }
    {
        if !is_recorded(coins) {
            return Err(Unsplit::Refused(Declined {
                refusal: Refusal::Coins,
                given: self,
            }));
        }
        let ClashSlot { progress } = self;
        Ok(progress.split(field, coins, lists)?)
    }
}

impl SilentSlot {
    /// Sends SCROLL for the next group that waits, or the closing REPEAT if none does.
    pub fn leave<F: Field>(
        self,
        field: &mut F,
        lists: &mut Lists<'_>,
    ) -> Result<Continuation, Stopped>
        ensures rule { (coins : List ℕ) →
            Continues F.Field coins (at_silent self) (position_after result) field.old field.new lists.old lists.new }
        ensures behind { BothBehind lists.old lists.new }
        ensures counts { counts_in (position_after result) ≡ counts_after (counts_in (at_silent self)) result }
        ensures within { OnOk result (IsWithin (budget_in (at_silent self)) (position_after result)) }
        ensures slots { items_of lists.new.slots ≡ slots_after (items_of lists.old.slots) result }
        ensures serials { lists.new.serials ≡ lists.old.serials }
    {
        let SilentSlot { progress } = self;
        if progress.waiting == 0 {
            return Ok(Continuation::Whole(progress.close(field)?));
        }
        Ok(Continuation::Next(progress.scroll(field, lists)?))
    }
}

impl LoneSlot {
    /// Lists the serial number, and sends READ until a reply is heard as lone. The slot can then be left. A sweep
    /// that stops here has not heard one.
    pub fn read<F: Field>(self, field: &mut F, lists: &mut Lists<'_>) -> Result<SilentSlot, Stopped>
        ensures rule { (coins : List ℕ) →
            Continues F.Field coins (at_lone self) (position_read result) field.old field.new lists.old lists.new }
        ensures behind { BothBehind lists.old lists.new }
        ensures counts { counts_in (position_read result) ≡
            counts_read (counts_in (at_lone self)) (counts_in (position_read result)).commands }
        ensures within { OnOk result (IsWithin (budget_in (at_lone self)) (position_read result)) }
        ensures sent { IfOk result (λ s. (counts_in (at_lone self)).commands < (counts_in (at_silent s)).commands) }
        ensures stop { IfErr result (λ s. stop_number s.stop ≡ (if is_full lists.old.serials then 9 else 8)) }
        ensures unread { (coins : List ℕ) → IfErr result (λ s. IsFalse (is_full lists.old.serials)
            → Continues F.Field coins
            (at_lone self) (at_unread self s.counts) field.old field.new lists.old lists.new) }
        ensures slots { lists.new.slots ≡ lists.old.slots }
        ensures serials { items_of lists.new.serials ≡
            with_item (is_full lists.old.serials) (items_of lists.old.serials) (serial_heard self) }
    {
        let LoneSlot { progress, serial } = self;
        if lists.serials.push(serial).is_err() {
            return Err(progress.stopped(Stop::Full));
        }
        progress.read(field, &serial)
    }

    /// Ends the sweep here. Nothing is sent or listed.
    pub fn give_up(self) -> GivenUp
        ensures { result ≡ record { serial = serial_heard self; counts = counts_in (at_lone self) } }
    {
        let LoneSlot { progress, serial } = self;
        GivenUp {
            serial,
            counts: progress.counts,
        }
    }
}

impl Progress {
    // Splits a clash slot, by rows of coins that there are.
    fn split<F: Field>(
        self,
        field: &mut F,
        coins: &[u64],
        lists: &mut Lists<'_>,
    ) -> Result<Slot, Stopped>
        requires { 0 < length coins.now }
        ensures rule { Continues F.Field coins.now
            (at_slot in_clash self) (position_opened result) field.old field.new lists.old lists.new }
        ensures behind { BothBehind lists.old lists.new }
        ensures counts { counts_in (position_opened result) ≡ counts_opened self.counts result }
        ensures within { OnOk result (IsWithin self.budget (position_opened result)) }
        ensures slots { items_of lists.new.slots ≡ slots_opened command.Query (items_of lists.old.slots) result }
        ensures serials { lists.new.serials ≡ lists.old.serials }
    {
        if self.waiting == u8::MAX {
            return Err(self.stopped(Stop::Deep));
        }
        let row = coins_at(coins, self.next);
        let progress = Progress {
            waiting: self.waiting + 1,
            next: self.next % coins.len() + 1,
            ..self
        };
        query(field, row, progress, lists)
    }

    // Goes on to the next group that waits.
    fn scroll<F: Field>(self, field: &mut F, lists: &mut Lists<'_>) -> Result<Slot, Stopped>
        requires { 0 < self.waiting }
        ensures rule { (coins : List ℕ) → Continues F.Field coins
            (at_slot in_silence self) (position_opened result) field.old field.new lists.old lists.new }
        ensures behind { BothBehind lists.old lists.new }
        ensures counts { counts_in (position_opened result) ≡ counts_opened self.counts result }
        ensures within { OnOk result (IsWithin self.budget (position_opened result)) }
        ensures slots { items_of lists.new.slots ≡ slots_opened command.Scroll (items_of lists.old.slots) result }
        ensures serials { lists.new.serials ≡ lists.old.serials }
    {
        let progress = Progress {
            waiting: self.waiting - 1,
            ..self
        };
        scroll(field, progress, lists)
    }

    // Sends READ until a reply is heard as lone.
    fn read<F: Field>(self, field: &mut F, serial: &[u8]) -> Result<SilentSlot, Stopped>
        requires { length serial.now ≡ 8 }
        ensures rule { (coins : List ℕ) (lists : Lists) → Continues F.Field coins
            (at_slot (in_reading serial.now) self) (position_read result) field.old field.new lists lists }
        ensures counts { counts_in (position_read result) ≡
            counts_read self.counts (counts_in (position_read result)).commands }
        ensures within { OnOk result (IsWithin self.budget (position_read result)) }
        ensures sent { IfOk result (λ s. self.counts.commands < s.progress.counts.commands) }
        ensures stop { IfErr result (λ s. stop_number s.stop ≡ 8) }
        ensures unread { (coins : List ℕ) (lists : Lists) → IfErr result (λ s. Continues F.Field coins
            (at_slot (in_reading serial.now) self)
            (at_slot (in_reading serial.now) (progress_with self.budget self.waiting self.next s.counts))
            field.old field.new lists lists) }
    {
        let mut progress = self;
        for sent in self.counts.commands..self.budget {
            let heard = read(field, serial);
            progress.counts.commands = sent + 1;
            if heard == Hearing::Lone {
                return Ok(SilentSlot { progress });
            }
        }
        Err(progress.stopped(Stop::Spent))
    }

    // Sends the closing REPEAT, which opens no slot.
    fn close<F: Field>(self, field: &mut F) -> Result<Counts, Stopped>
        requires { self.waiting ≡ 0 }
        ensures rule { (coins : List ℕ) (lists : Lists) → Continues F.Field coins
            (at_slot in_silence self) (position_closed result) field.old field.new lists lists }
        ensures counts { counts_in (position_closed result) ≡ counts_closed self.counts result }
    {
        if self.is_spent() {
            return Err(self.stopped(Stop::Spent));
        }
        let _ = repeat(field);
        Ok(self.counts.with_command())
    }
}
