// Worked cases at the limits of the definitions of this program, by a second implementation.
ghost use Rattle.field_cases.specs.Listings.{BytesTaken, TagsTaken, SplitWords, SingleWords};
ghost use Rattle.field_cases.specs.Listings.{SpeltRows, SpeltSendings, PartsTaken, NodesNested};

// The fingerprint of bytes.
#[tactic(auto, using(crate::proofs::Listed::bytes_taken))]
fn fingerprints_of_bytes()
    ensures { BytesTaken }
{}

// The fingerprint of tags.
#[tactic(auto, using(crate::proofs::Listed::tags_taken))]
fn fingerprints_of_tags()
    ensures { TagsTaken }
{}

// The word in front of the first space, and the text behind it.
#[tactic(auto, using(crate::proofs::Listed::split_words))]
fn texts_with_a_space()
    ensures { SplitWords }
{}

// Texts that are one word.
#[tactic(auto, using(crate::proofs::Listed::single_words))]
fn texts_without_a_space()
    ensures { SingleWords }
{}

// Texts that spell a row of coins.
#[tactic(auto, using(crate::proofs::Listed::spelt_rows))]
fn texts_of_a_row()
    ensures { SpeltRows }
{}

// Texts that spell what is sent.
#[tactic(auto, using(crate::proofs::Listed::spelt_sendings))]
fn texts_of_a_send()
    ensures { SpeltSendings }
{}

// The tags of what a layer is made of.
#[tactic(auto, using(crate::proofs::Listed::parts_taken))]
fn tags_of_parts()
    ensures { PartsTaken }
{}

// The tags of a field with a layer or none.
#[tactic(auto, using(crate::proofs::Listed::nodes_nested))]
fn tags_of_layers()
    ensures { NodesNested }
{}
