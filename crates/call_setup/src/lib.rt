// Set-up: the table is checked, and all eight pane records made fresh. Crate `console` has it under one name
// with the calls.
#![tactic(auto)]

ghost use Rattle.std.specs.Prelude.{◌≡◌};
ghost use Rattle.model.specs.Calls.{set_up};
ghost use Rattle.call_common.specs.Answers.{state, answer};

use call_common::{Answered, fresh, refused, replied};
use model::{Console, Reply};
use refusals::table::check_setup;

// Accepts geometry and table with eight fresh pane records, whatever the record lent has for them; refused 6
// to 11. Both buffers keep every bit.
pub fn set_up(screen: &[u8], stores: &[u8], console: Console) -> Answered
    ensures { answer result screen.now stores.now
        ≡ set_up (state console screen.now stores.now) }
{
    if let Err(refusal) = check_setup(screen.len(), stores.len(), console) {
        return refused(console, refusal);
    }
    let pane = fresh();
    let panes = [pane; 8];
    let mut next = console;
    next.panes = panes;
    replied(next, Reply::Done)
}
