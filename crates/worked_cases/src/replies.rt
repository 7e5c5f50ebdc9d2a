// Replies.
ghost use Rattle.worked_cases.specs.Reply.{Stretches, WrittenReplies};

// Bytes of a memory from an address on, beyond its end too.
#[tactic(auto, using(crate::proofs::Reply::stretches))]
fn bytes_of_memories()
    ensures { Stretches }
{}

// What writing a reply answers, and leaves in the buffer.
#[tactic(auto, using(crate::proofs::Reply::written_replies))]
fn writing()
    ensures { WrittenReplies }
{}
