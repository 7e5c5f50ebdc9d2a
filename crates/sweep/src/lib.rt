// A reader's whole sweep of a field.
#![tactic(auto)]

ghost use Rattle.std.specs.Prelude.{◌≡◌, IfOk, OnErr, if◌then◌else◌, Some, None};
ghost use Rattle.protocol.specs.Refusals.{refusal_in};
ghost use Rattle.slot.specs.Calls.{setting, BothBehind, is_recorded};
ghost use Rattle.sweep.specs.Cases.{EmptySweeps};
ghost use Rattle.sweep.specs.Whole.{outcome_of, Swept, Lawful};

mod working;

use field::field::Field;
use protocol::refusal::Refusal;
use slot::ending::{End, Report};
use slot::kinds::Unsplit;
use slot::lists::Lists;
use slot::working::is_recorded;
use working::work;

/// Sweeps a field: splits each clash and reads each lone tag, until the sweep is whole or stopped.
/// The rule, the stops and what is counted are in docs/sweeps.md.
#[tactic(auto, using(crate::proofs::Empties::empty_sweeps))]
pub fn sweep<F: Field>(
    field: &mut F,
    coins: &[u64],
    budget: u16,
    lists: &mut Lists<'_>,
) -> Result<Report, Refusal>
    ensures refusal { refusal_in result ≡ (if is_recorded coins.now then None else Some 10) }
    ensures same { OnErr result ((field.new ≡ field.old) × (lists.new ≡ lists.old)) }
    ensures rule { IfOk result (λ r.
        Swept F.Field (setting coins.now budget lists.old) field.old field.new (outcome_of r lists.new)) }
    ensures laws { IfOk result (λ r. Lawful (F.faithful field.old) (setting coins.now budget lists.old)
        (F.tags field.old) (F.tags field.new) (outcome_of r lists.new)) }
    ensures behind { BothBehind lists.old lists.new }
    ensures empty { EmptySweeps }
{
    if !is_recorded(coins) {
        return Err(Refusal::Coins);
    }
    match work(field, coins, budget, lists) {
        Ok(counts) => Ok(Report {
            end: End::Whole,
            counts,
        }),
        Err(Unsplit::Stopped(stopped)) => Ok(Report::from(stopped)),
        Err(Unsplit::Refused(declined)) => Err(declined.refusal),
    }
}
