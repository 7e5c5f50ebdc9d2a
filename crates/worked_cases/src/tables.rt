// Tables of tags.
ghost use Rattle.worked_cases.specs.Bench.{Finds, GapsForAll};

// The first place that has a serial number.
#[tactic(auto, using(crate::proofs::Bench::finds))]
fn places_of_serials()
    ensures { Finds }
{}

// All tags after a gap.
#[tactic(auto, using(crate::proofs::Bench::gaps_for_all))]
fn gaps_of_all()
    ensures { GapsForAll }
{}
