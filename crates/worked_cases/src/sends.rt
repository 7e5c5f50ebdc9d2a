// What a send to a field rests on.
ghost use Rattle.worked_cases.specs.Field.{Sends, Coins, MixedAirs, HeardAirs, HearingsListed, HeardTogether};

// The tags after a send, what is heard, and the buffer.
#[tactic(auto, using(crate::proofs::Field::sends))]
fn tables_after_sends()
    ensures { Sends }
{}

// The coin of a place.
#[tactic(auto, using(crate::proofs::Field::coins))]
fn coins_of_rows()
    ensures { Coins }
{}

// What two groups put on the air together.
#[tactic(auto, using(crate::proofs::Field::mixed_airs))]
fn two_groups_on_air()
    ensures { MixedAirs }
{}

// What may be heard of what is on the air, and what is heard where lone replies are.
#[tactic(auto, using(crate::proofs::Field::heard_airs))]
fn heard_of_the_air()
    ensures { HeardAirs }
{}

// The hearings by their numbers and names.
#[tactic(auto, using(crate::proofs::Field::hearings_listed))]
fn hearing_names()
    ensures { HearingsListed }
{}

// What two groups are heard as at once.
#[tactic(auto, using(crate::proofs::Field::heard_together))]
fn two_groups_heard()
    ensures { HeardTogether }
{}
