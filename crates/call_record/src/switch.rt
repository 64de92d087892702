// Switch: a pane's trap switch set (02, A.7).
ghost use Rattle.std.specs.Prelude.{◌≡◌};
ghost use Rattle.model.specs.Numbers.{refused_by};
ghost use Rattle.model.specs.Calls.{exec, on, own_refusal, switched};
ghost use Rattle.model.specs.Calls as calls;
ghost use Rattle.model.specs.declared.Row.{Row};
ghost use Rattle.model.specs.declared.Pane as declared;
ghost use Rattle.call_common.specs.Answers.{state, answer};

use call_common::{Answered, admit, refused, with_record};
use model::{Console, Pane, Refusal, Reply, STATUS_RUNNING, STATUS_TRAPPED};

// Switch's own check: refused 33 if the value is neither 0 nor 1.
#[tactic(auto, unfolding(model::specs::Calls::own_refusal))]
fn check_switch(value: u32) -> Result<(), Refusal>
    ensures { (row : Row) (pane : declared.Pane) → refused_by result ≡ own_refusal row pane (calls.switch value) }
{
    if value > 1 {
        return Err(Refusal::Switch);
    }
    Ok(())
}

// The pane record with the trap switch off (0) or on (1); turned off at status 4 it has status 1, and the trap flag
// is kept.
fn switched(pane: Pane, value: u32) -> Pane
    ensures { result ≡ switched pane value }
{
    let on = value == 1;
    let mut q = pane;
    q.flags.switch = on;
    if (value == 0) & (pane.progress.status == STATUS_TRAPPED) {
        q.progress.status = STATUS_RUNNING;
    }
    q
}

// Sets the trap switch of the pane with a number; refused 33 if the value is neither 0 nor 1.
pub fn switch(screen: &[u8], stores: &[u8], console: Console, number: u32, value: u32) -> Answered
    ensures { answer result screen.now stores.now
        ≡ exec (state console screen.now stores.now) (on number (calls.switch value)) }
{
    let admission = match admit(screen.len(), stores.len(), console, number) {
        Ok(admission) => admission,
        Err(refusal) => return refused(console, refusal),
    };
    if let Err(refusal) = check_switch(value) {
        return refused(console, refusal);
    }
    let pane = switched(admission.pane, value);
    with_record(console, number, pane, Ok(Reply::Done))
}
