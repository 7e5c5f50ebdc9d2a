// Worked cases at the limits of what the panel is shown, by a second implementation.
ghost use Rattle.panel.specs.Listings.{ShownFrames};

// The answer, and the bytes that are shown.
#[tactic(auto, using(crate::proofs::Listed::shown_frames))]
fn shown_frames()
    ensures { ShownFrames }
{}
