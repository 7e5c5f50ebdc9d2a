// Running calls on two fields.
ghost use Rattle.std.specs.Prelude.{◌≡◌, ◌≤◌, ◌||◌, if◌then◌else◌, length, Some, None, OnOk, OnErr, nat_lt};
ghost use Rattle.history.specs.Runs.{Ran};
ghost use Rattle.protocol.specs.Refusals.{refusal_in};
ghost use Rattle.two_fields.specs.Laws.{BothRan, Law};

use field::field::Field;
use history::call::Call;
use history::running;
use history::workspace::Workspace;
use protocol::refusal::Refusal;

/// Runs one list of calls on two fields, of which each has its own workspaces. A call that is refused belongs to the
/// run, which goes on. With fewer workspaces than calls on either side nothing is done; those beyond the calls stay as
/// they are.
#[tactic(auto, using(crate::proofs::Agreements::law))]
pub fn run<L: Field, R: Field>(
    left: &mut L,
    right: &mut R,
    calls: &[Call<'_>],
    left_workspaces: &mut [Workspace<'_>],
    right_workspaces: &mut [Workspace<'_>],
) -> Result<(), Refusal>
    ensures refusal { refusal_in result ≡ (if nat_lt (length left_workspaces.old) (length calls.now)
        || nat_lt (length right_workspaces.old) (length calls.now) then Some 5 else None) }
    ensures run { OnOk result (BothRan L.Field R.Field calls.now left.old left.new right.old right.new
        left_workspaces.old left_workspaces.new right_workspaces.old right_workspaces.new) }
    ensures law { Law L.Field R.Field }
    ensures fields { OnErr result ((left.new ≡ left.old) × (right.new ≡ right.old)) }
    ensures workspaces { OnErr result ((left_workspaces.new ≡ left_workspaces.old)
        × (right_workspaces.new ≡ right_workspaces.old)) }
{
    if left_workspaces.len() < calls.len() || right_workspaces.len() < calls.len() {
        return Err(Refusal::Buffer);
    }
    run_both(left, right, calls, left_workspaces, right_workspaces);
    Ok(())
}

// The same, where there are workspaces enough.
fn run_both<L: Field, R: Field>(
    left: &mut L,
    right: &mut R,
    calls: &[Call<'_>],
    left_workspaces: &mut [Workspace<'_>],
    right_workspaces: &mut [Workspace<'_>],
)
    requires on_left { length calls.now ≤ length left_workspaces.old }
    requires on_right { length calls.now ≤ length right_workspaces.old }
    ensures { BothRan L.Field R.Field calls.now left.old left.new right.old right.new
        left_workspaces.old left_workspaces.new right_workspaces.old right_workspaces.new }
{
    run_on(left, calls, left_workspaces);
    run_on(right, calls, right_workspaces);
}

// On one of them, with workspaces enough: such a run is not refused.
fn run_on<F: Field>(field: &mut F, calls: &[Call<'_>], workspaces: &mut [Workspace<'_>])
    requires { length calls.now ≤ length workspaces.old }
    ensures { Ran F.Field calls.now workspaces.old workspaces.new field.old field.new }
{
    let _ = running::run(field, calls, workspaces);
}
