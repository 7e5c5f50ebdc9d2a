// A reader's sweep of a field whose lone replies are spoiled now and then.
#![tactic(auto)]

ghost use Rattle.std.specs.Prelude.{◌≡◌, ◌≢◌, Any, IsTrue, IfOk, OnErr, if◌then◌else◌, Some, None};
ghost use Rattle.protocol.specs.Refusals.{refusal_in};
ghost use Rattle.composite_fields.specs.Spoilers.{field_of, period_of};
ghost use Rattle.slot.specs.Counts.{end_number};
ghost use Rattle.slot.specs.Calls.{setting, is_recorded};
ghost use Rattle.sweep.specs.Effects.{is_due};
ghost use Rattle.sweep.specs.Whole.{outcome_of, Swept};

use composite_fields::spoiler::Spoiler;
use field::field::Field;
use protocol::refusal::Refusal;
use slot::ending::Report;
use slot::lists::Lists;
use sweep::sweep;

/// Sweeps a field through its spoiler. Where that spoils each lone reply and a tag is due, no sweep is whole.
pub fn sweep_spoiled<F: Field>(
    spoiler: &mut Spoiler<F>,
    coins: &[u64],
    budget: u16,
    lists: &mut Lists<'_>,
) -> Result<Report, Refusal>
    ensures refusal { refusal_in result ≡ (if is_recorded coins.now then None else Some 10) }
    ensures same { OnErr result ((spoiler.new ≡ spoiler.old) × (lists.new ≡ lists.old)) }
    ensures rule { IfOk result (λ r. Swept ⟦<Spoiler<F> as Field>⟧ (setting coins.now budget lists.old)
        spoiler.old spoiler.new (outcome_of r lists.new)) }
    ensures period { period_of spoiler.new ≡ period_of spoiler.old }
    ensures never_whole { IfOk result (λ r. period_of spoiler.old ≡ 1
        → Any (λ t. IsTrue (is_due t)) (F.tags (field_of spoiler.old)) → end_number r.end ≢ 0) }
{
    sweep(spoiler, coins, budget, lists)
}
