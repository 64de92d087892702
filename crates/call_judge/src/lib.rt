// The judge (02, A.2): a pane's list judged before it runs. Crate `console` has it under one name with the other
// calls.
#![tactic(auto)]

ghost use Rattle.std.specs.Prelude.{◌≡◌};
ghost use Rattle.model.specs.Calls.{exec, on};
ghost use Rattle.model.specs.Calls as calls;
ghost use Rattle.call_common.specs.Answers.{state, answer};

use call_common::{Answered, admit, check_start, refused, replied};
use model::{Console, Frame, Reply};

// Judges the list at an address of the store of the pane with a number, as from a cleared pane; changes nothing;
// "refused as start refuses it". Answers that it is clean, with the number of commands walked, or the first fault
// with its address. The pane's own part of the stores is lent on, and nothing else of it.
pub fn judge(screen: &[u8], stores: &[u8], console: Console, number: u32, address: u32) -> Answered
    ensures { answer result screen.now stores.now
        ≡ exec (state console screen.now stores.now) (on number (calls.judge address)) }
{
    let admission = match admit(screen.len(), stores.len(), console, number) {
        Ok(admission) => admission,
        Err(refusal) => return refused(console, refusal),
    };
    if let Err(refusal) = check_start(admission.row, address) {
        return refused(console, refusal);
    }
    let geometry = console.geometry;
    let row = admission.row;
    let start = row.start as usize;
    let end = start + row.len as usize;
    let verdict = judge::judge(&stores[start..end], Frame { geometry, row }, address);
    replied(console, Reply::Judged(verdict))
}
