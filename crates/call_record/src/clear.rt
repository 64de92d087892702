// Clear: a pane record made fresh.
ghost use Rattle.std.specs.Prelude.{◌≡◌};
ghost use Rattle.model.specs.Calls.{exec, on};
ghost use Rattle.model.specs.Calls as calls;
ghost use Rattle.call_common.specs.Answers.{state, answer};

use call_common::{Answered, admit, fresh, refused, with_record};
use model::{Console, Reply};

// Makes the record of the pane with a number fresh; store and pixels are kept; no refusal of its own.
pub fn clear(screen: &[u8], stores: &[u8], console: Console, number: u32) -> Answered
    ensures { answer result screen.now stores.now
        ≡ exec (state console screen.now stores.now) (on number calls.clear) }
{
    if let Err(refusal) = admit(screen.len(), stores.len(), console, number) {
        return refused(console, refusal);
    }
    with_record(console, number, fresh(), Ok(Reply::Done))
}
