// Pairs and spoilers.
ghost use Rattle.worked_cases.specs.CompositeFields.{PairsMade, RowsBehind, LonesCounted, HeardSpoiled};

// The tags of a pair, or that there are too many for one.
#[tactic(auto, using(crate::proofs::CompositeFields::pairs_made))]
fn joined_tables()
    ensures { PairsMade }
{}

// The row of a pair's right.
#[tactic(auto, using(crate::proofs::CompositeFields::rows_behind))]
fn rows_of_the_right()
    ensures { RowsBehind }
{}

// Which replies a spoiler counts.
#[tactic(auto, using(crate::proofs::CompositeFields::lones_counted))]
fn counted_replies()
    ensures { LonesCounted }
{}

// Which replies it spoils.
#[tactic(auto, using(crate::proofs::CompositeFields::heard_spoiled))]
fn spoiled_replies()
    ensures { HeardSpoiled }
{}
