// Sweeps by the reader's rule.
ghost use Rattle.worked_cases.specs.Sweep.{WorkedSweeps, SpoiledSweeps, DeepSweeps, WorkedFates};

// Where each lone reply is heard as lone.
#[tactic(auto, using(crate::proofs::Sweep::worked_sweeps))]
fn heard_plainly()
    ensures { WorkedSweeps }
{}

// Where some are heard as clashes.
#[tactic(auto, using(crate::proofs::Sweep::spoiled_sweeps))]
fn heard_spoiled()
    ensures { SpoiledSweeps }
{}

// What the reader does at a clash.
#[tactic(auto, using(crate::proofs::Sweep::deep_sweeps))]
fn deep_splits()
    ensures { DeepSweeps }
{}

// What a whole sweep leaves of tags, and whose serial numbers it lists.
#[tactic(auto, using(crate::proofs::Sweep::worked_effects))]
fn sweep_effects()
    ensures { WorkedFates }
{}
