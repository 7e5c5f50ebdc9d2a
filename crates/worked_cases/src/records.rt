// The record of a tag.
ghost use Rattle.worked_cases.specs.Record.{NewTags, Addresses, Selections, Comparisons, Storings, Marks, States};
ghost use Rattle.worked_cases.specs.Record.{Gaps, Likenesses};

// A new tag, and its serial number.
#[tactic(auto, using(crate::proofs::Record::new_tags))]
fn tags_when_new()
    ensures { NewTags }
{}

// The byte and the lock at an address.
#[tactic(auto, using(crate::proofs::Record::addresses))]
fn bytes_and_locks()
    ensures { Addresses }
{}

// What a mask selects.
#[tactic(auto, using(crate::proofs::Record::selections))]
fn bits_of_masks()
    ensures { Selections }
{}

// Comparing under a mask.
#[tactic(auto, using(crate::proofs::Record::comparisons))]
fn masked_comparisons()
    ensures { Comparisons }
{}

// Storing under a mask.
#[tactic(auto, using(crate::proofs::Record::storings))]
fn masked_storings()
    ensures { Storings }
{}

// The write mark: its number, its fall, and whether it is WRITE_OK.
#[tactic(auto, using(crate::proofs::Record::marks))]
fn write_marks()
    ensures { Marks }
{}

// The states by their names.
#[tactic(auto, using(crate::proofs::Record::states))]
fn state_names()
    ensures { States }
{}

// A tag after a gap.
#[tactic(auto, using(crate::proofs::Record::gaps))]
fn gaps_of_one()
    ensures { Gaps }
{}

// Whether two tags are alike.
#[tactic(auto, using(crate::proofs::Record::likenesses))]
fn alike_or_not()
    ensures { Likenesses }
{}
