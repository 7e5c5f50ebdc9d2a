// Opening and making.
ghost use Rattle.worked_cases.specs.Frame.{OpenedFrames, RefusedFrames, MadeFrames, LaidBytes};

// What opening shows of a frame of each command.
#[tactic(auto, using(crate::proofs::Frame::opened_frames))]
fn openings()
    ensures { OpenedFrames }
{}

// By which refusal a frame does not open.
#[tactic(auto, using(crate::proofs::Frame::refused_frames))]
fn refusals()
    ensures { RefusedFrames }
{}

// What making answers, and leaves in the buffer.
#[tactic(auto, using(crate::proofs::Frame::made_frames))]
fn makings()
    ensures { MadeFrames }
{}

// Bytes laid over a buffer.
#[tactic(auto, using(crate::proofs::Frame::laid_bytes))]
fn bytes_laid_over()
    ensures { LaidBytes }
{}
