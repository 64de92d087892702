// Run: at most so many commands of a pane. Crate `console` has it under one name with the other calls.
#![tactic(auto)]

ghost use Rattle.std.specs.Prelude.{◌≡◌, ℕ};
ghost use Rattle.model.specs.Numbers.{refused_by};
ghost use Rattle.model.specs.Calls.{exec, on, own_refusal, released};
ghost use Rattle.model.specs.Calls as calls;
ghost use Rattle.model.specs.declared.Row.{Row};
ghost use Rattle.call_common.specs.Answers.{state, answer};
ghost use Rattle.call_run.specs.Running.{ran_reply};

use call_common::{Answered, admit, refused, with_record};
use model::{Console, Frame, Pane, Ran, Refusal, Reply, STATUS_RUNNING, STATUS_TRAPPED};
use processor::Finished;

// Run's own check: refused 4 if the pane's status is neither 1 nor 4.
#[tactic(auto, unfolding(model::specs::Calls::own_refusal))]
fn check_run(pane: Pane) -> Result<(), Refusal>
    ensures { (row : Row) (budget : ℕ) → refused_by result ≡ own_refusal row pane (calls.run budget) }
{
    let status = pane.progress.status;
    if (status == STATUS_RUNNING) | (status == STATUS_TRAPPED) {
        return Ok(());
    }
    Err(Refusal::Status)
}

// The record that a run begins with: at status 4 the trap flag is cleared and the status is 1 (02, A.7).
fn released(pane: Pane) -> Pane
    ensures { result ≡ released pane }
{
    if pane.progress.status != STATUS_TRAPPED {
        return pane;
    }
    let mut q = pane;
    q.flags.trap = false;
    q.progress.status = STATUS_RUNNING;
    q
}

// Commands done, status, fault, pixels drawn.
fn ran(s: Finished) -> Reply
    ensures { result ≡ ran_reply s }
{
    Reply::Ran(Ran {
        commands: s.count,
        status: s.pane.progress.status,
        fault: s.pane.progress.fault,
        pixels: s.paint,
    })
}

// Does at most so many commands of the pane with a number; refused 4 if its status is neither 1 nor 4. Answers
// the commands done, the status, the fault and the pixels drawn. The pane's own part of the stores is lent on,
// and nothing else of it.
pub fn run(
    screen: &mut [u8],
    stores: &mut [u8],
    console: Console,
    number: u32,
    budget: u32,
) -> Answered
    ensures { answer result screen.new stores.new
        ≡ exec (state console screen.old stores.old) (on number (calls.run budget)) }
{
    let admission = match admit(screen.len(), stores.len(), console, number) {
        Ok(admission) => admission,
        Err(refusal) => return refused(console, refusal),
    };
    let pane = admission.pane;
    if let Err(refusal) = check_run(pane) {
        return refused(console, refusal);
    }
    let row = admission.row;
    let geometry = console.geometry;
    let f = Frame { geometry, row };
    let start = row.start as usize;
    let end = start + row.len as usize;
    let begun = released(pane);
    let s = processor::run(screen, &mut stores[start..end], f, begun, budget);
    with_record(console, number, s.pane, Ok(ran(s)))
}
