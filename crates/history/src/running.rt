// Running calls on one field.
ghost use Rattle.std.specs.Prelude.{◌≡◌, ◌≤◌, if◌then◌else◌, length, Some, None, OnOk, OnErr, nat_lt};
ghost use Rattle.protocol.specs.Refusals.{refusal_in};
ghost use Rattle.slot.specs.Calls.{setting};
ghost use Rattle.history.specs.Steps.{send, gap, sweep, step_of, AfterStep};
ghost use Rattle.history.specs.Runs.{send_outcome, AfterCall, Ran};

use crate::call::Call;
use crate::workspace::{Answer, Workspace};
use field::field::{Field, ROOM};
use field::hearing::Hearing;
use protocol::refusal::Refusal;
use sweep::sweep;

/// Runs a list of calls on a field, each at the workspace of its place. A call that is refused belongs to the run,
/// which goes on. With fewer workspaces than calls nothing is done; those beyond the calls stay as they are.
pub fn run<F: Field>(
    field: &mut F,
    calls: &[Call<'_>],
    workspaces: &mut [Workspace<'_>],
) -> Result<(), Refusal>
    ensures refusal { refusal_in result ≡ (if nat_lt (length workspaces.old) (length calls.now) then Some 5 else None) }
    ensures run { OnOk result (Ran F.Field calls.now workspaces.old workspaces.new field.old field.new) }
    ensures same { OnErr result ((field.new ≡ field.old) × (workspaces.new ≡ workspaces.old)) }
{
    if workspaces.len() < calls.len() {
        return Err(Refusal::Buffer);
    }
    run_all(field, calls, workspaces);
    Ok(())
}

// The same, where there are workspaces enough.
fn run_all<F: Field>(field: &mut F, calls: &[Call<'_>], workspaces: &mut [Workspace<'_>])
    requires { length calls.now ≤ length workspaces.old }
    ensures { Ran F.Field calls.now workspaces.old workspaces.new field.old field.new }
{
    for (place, call) in calls.iter().enumerate() {
        meet(field, *call, &mut workspaces[place]);
    }
}

// One call.
fn meet<F: Field>(field: &mut F, call: Call<'_>, workspace: &mut Workspace<'_>)
    ensures { AfterCall F.Field (step_of call.entry workspace.old) workspace.old workspace.new field.old field.new }
{
    match call {
        Call::Send { frame, row, room } => send_at(field, frame, row, room, workspace),
        Call::Gap { microseconds } => pass_at(field, microseconds, workspace),
        Call::Sweep => sweep_at(field, workspace),
    }
}

fn send_at<F: Field>(
    field: &mut F,
    frame: &[u8],
    row: u64,
    room: usize,
    workspace: &mut Workspace<'_>,
)
    ensures { AfterCall F.Field (send frame.now row room) workspace.old workspace.new field.old field.new }
{
    match transmit(field, frame, row, room) {
        Ok(heard) => workspace.answer = Some(Answer::Heard(heard)),
        Err(refusal) => workspace.answer = Some(Answer::Refused(refusal)),
    }
}

// Sends a frame with a reply buffer of some length. What is heard depends on no more than whether it is long enough, so
// the longest that counts serves for all longer ones.
fn transmit<F: Field>(
    field: &mut F,
    frame: &[u8],
    row: u64,
    room: usize,
) -> Result<Hearing, Refusal>
    ensures { AfterStep F.Field (send frame.now row room) field.old (send_outcome result) field.new }
{
    let mut buffer = [0; ROOM];
    field.send(frame, row, &mut buffer[..room.min(ROOM)])
}

fn pass_at<F: Field>(field: &mut F, microseconds: u32, workspace: &mut Workspace<'_>)
    ensures { AfterCall F.Field (gap microseconds) workspace.old workspace.new field.old field.new }
{
    field.pass(microseconds);
    workspace.answer = Some(Answer::Passed);
}

#[tactic(auto, using(crate::proofs::Calls::called_swept, crate::proofs::Calls::called_refused))]
fn sweep_at<F: Field>(field: &mut F, workspace: &mut Workspace<'_>)
    ensures { AfterCall F.Field (sweep (setting workspace.old.coins.now workspace.old.budget workspace.old.lists))
        workspace.old workspace.new field.old field.new }
{
    match sweep(
        field,
        workspace.coins,
        workspace.budget,
        &mut workspace.lists,
    ) {
        Ok(report) => workspace.answer = Some(Answer::Swept(report)),
        Err(refusal) => workspace.answer = Some(Answer::Refused(refusal)),
    }
}
