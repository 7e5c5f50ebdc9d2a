// The check value.
ghost use Rattle.worked_cases.specs.Crc.{BitsTaken, BytesTaken, SealedMessages};

// The register after a bit.
#[tactic(auto, using(crate::proofs::Crc::bits_taken))]
fn register_bits()
    ensures { BitsTaken }
{}

// The register after a byte.
#[tactic(auto, using(crate::proofs::Crc::bytes_taken))]
fn register_bytes()
    ensures { BytesTaken }
{}

// The check value of a message, and the message with it behind.
#[tactic(auto, using(crate::proofs::Crc::sealed_messages))]
fn messages()
    ensures { SealedMessages }
{}
