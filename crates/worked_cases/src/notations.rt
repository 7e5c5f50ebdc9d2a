// What texts spell, how bytes are shown, and what is sent.
ghost use Rattle.worked_cases.specs.Notation.{ShownBytes, SmallLetters, SpeltBytes, SpeltArrays, SpeltSingle};
ghost use Rattle.worked_cases.specs.Notation.{SpeltBits, SpeltMarks, SpeltPermissions, SpeltLocks, ErrorsListed};
ghost use Rattle.worked_cases.specs.Notation.{ErrorsOfHex, LinesListed, NumberedTags, SampleListed, FramesListed};
ghost use Rattle.worked_cases.specs.Notation.{NoFramesListed, RepliesListed};

// How bytes are shown.
#[tactic(auto, using(crate::proofs::Notation::shown_bytes))]
fn bytes_as_text()
    ensures { ShownBytes }
{}

// Whether a text has small letters.
#[tactic(auto, using(crate::proofs::Notation::small_letters))]
fn texts_with_small_letters()
    ensures { SmallLetters }
{}

// Texts that spell bytes.
#[tactic(auto, using(crate::proofs::Notation::spelt_bytes))]
fn texts_of_bytes()
    ensures { SpeltBytes }
{}

// Texts that spell as many bytes as are wanted.
#[tactic(auto, using(crate::proofs::Notation::spelt_arrays))]
fn texts_of_so_many_bytes()
    ensures { SpeltArrays }
{}

// Texts that spell one byte.
#[tactic(auto, using(crate::proofs::Notation::spelt_single))]
fn texts_of_one_byte()
    ensures { SpeltSingle }
{}

// Texts that spell a bit.
#[tactic(auto, using(crate::proofs::Notation::spelt_bits))]
fn texts_of_a_bit()
    ensures { SpeltBits }
{}

// Texts that spell a write mark.
#[tactic(auto, using(crate::proofs::Notation::spelt_marks))]
fn texts_of_a_mark()
    ensures { SpeltMarks }
{}

// Texts that spell a permission.
#[tactic(auto, using(crate::proofs::Notation::spelt_permissions))]
fn texts_of_a_permission()
    ensures { SpeltPermissions }
{}

// Texts that spell locks.
#[tactic(auto, using(crate::proofs::Notation::spelt_locks))]
fn texts_of_locks()
    ensures { SpeltLocks }
{}

// What is printed of each error.
#[tactic(auto, using(crate::proofs::Notation::errors_listed))]
fn printed_errors()
    ensures { ErrorsListed }
{}

// What the errors of reading hexadecimal become.
#[tactic(auto, using(crate::proofs::Notation::errors_of_hex))]
fn errors_of_hexadecimal()
    ensures { ErrorsOfHex }
{}

// What is printed of the number of a line.
#[tactic(auto, using(crate::proofs::Notation::lines_listed))]
fn printed_lines()
    ensures { LinesListed }
{}

// The tags that the programs show, by their numbers.
#[tactic(auto, using(crate::proofs::Notation::numbered_tags))]
fn tags_by_number()
    ensures { NumberedTags }
{}

// The tag that is shown on its own.
#[tactic(auto, using(crate::proofs::Notation::sample_listed))]
fn sample()
    ensures { SampleListed }
{}

// The frame of a code and parameters.
#[tactic(auto, using(crate::proofs::Notation::frames_listed))]
fn frames_to_send()
    ensures { FramesListed }
{}

// The error where a code and parameters make no frame.
#[tactic(auto, using(crate::proofs::Notation::no_frames_listed))]
fn no_frames_to_send()
    ensures { NoFramesListed }
{}

// The bytes of a reply.
#[tactic(auto, using(crate::proofs::Notation::replies_listed))]
fn replies_to_send()
    ensures { RepliesListed }
{}
