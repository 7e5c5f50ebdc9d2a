// The step of a tag: the record after it, and the reply.
ghost use Rattle.worked_cases.specs.Tag.{Selects, UnselectsNe, UnselectsFlag, UnselectsNoFlag, Queries, Scrolls};
ghost use Rattle.worked_cases.specs.Tag.{Repeats, Resets, Reads, FlexibleReads, Verifies, Writes, LocksTried};
ghost use Rattle.worked_cases.specs.Tag.{LockQueries, NoFrames};

// On SELECT.
#[tactic(auto, using(crate::proofs::Tag::selects))]
fn on_select()
    ensures { Selects }
{}

// On UNSELECT_NE.
#[tactic(auto, using(crate::proofs::Tag::unselects_ne))]
fn on_unselect_ne()
    ensures { UnselectsNe }
{}

// On UNSELECT_ID_FLAG.
#[tactic(auto, using(crate::proofs::Tag::unselects_flag))]
fn on_unselect_id_flag()
    ensures { UnselectsFlag }
{}

// On UNSELECT_NOID_FLAG.
#[tactic(auto, using(crate::proofs::Tag::unselects_no_flag))]
fn on_unselect_noid_flag()
    ensures { UnselectsNoFlag }
{}

// On QUERY.
#[tactic(auto, using(crate::proofs::Tag::queries))]
fn on_query()
    ensures { Queries }
{}

// On SCROLL.
#[tactic(auto, using(crate::proofs::Tag::scrolls))]
fn on_scroll()
    ensures { Scrolls }
{}

// On REPEAT.
#[tactic(auto, using(crate::proofs::Tag::repeats))]
fn on_repeat()
    ensures { Repeats }
{}

// On RESET.
#[tactic(auto, using(crate::proofs::Tag::resets))]
fn on_reset()
    ensures { Resets }
{}

// On READ.
#[tactic(auto, using(crate::proofs::Tag::reads))]
fn on_read()
    ensures { Reads }
{}

// On READ_FLEXIBLE.
#[tactic(auto, using(crate::proofs::Tag::flexible_reads))]
fn on_read_flexible()
    ensures { FlexibleReads }
{}

// On VERIFY.
#[tactic(auto, using(crate::proofs::Tag::verifies))]
fn on_verify()
    ensures { Verifies }
{}

// On WRITE.
#[tactic(auto, using(crate::proofs::Tag::writes))]
fn on_write()
    ensures { Writes }
{}

// On LOCK.
#[tactic(auto, using(crate::proofs::Tag::locks_tried))]
fn on_lock()
    ensures { LocksTried }
{}

// On QLOCK.
#[tactic(auto, using(crate::proofs::Tag::lock_queries))]
fn on_qlock()
    ensures { LockQueries }
{}

// On what opens as none.
#[tactic(auto, using(crate::proofs::Tag::no_frames))]
fn on_no_frame()
    ensures { NoFrames }
{}
