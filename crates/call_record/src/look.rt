// Look: what a pane shows of itself.
ghost use Rattle.std.specs.Prelude.{◌≡◌, Ok};
ghost use Rattle.model.specs.Replies.{response};
ghost use Rattle.model.specs.Calls.{exec, on, shown};
ghost use Rattle.model.specs.Calls as calls;
ghost use Rattle.call_common.specs.Answers.{state, answer};

use call_common::{Answered, admit, refused, replied};
use model::{Console, Pane, Reply, View};

// Status, fault, pointer, position, pick and trap flag of a pane record.
fn shown(pane: Pane) -> Reply
    ensures { response (Ok result) ≡ shown pane }
{
    let progress = pane.progress;
    let position = pane.position;
    let flags = pane.flags;
    let view = View {
        progress,
        position,
        pick: flags.pick,
        trap: flags.trap,
    };
    Reply::Seen(view)
}

// Shows the record of the pane with a number; changes nothing, and has no refusal of its own.
pub fn look(screen: &[u8], stores: &[u8], console: Console, number: u32) -> Answered
    ensures { answer result screen.now stores.now
        ≡ exec (state console screen.now stores.now) (on number calls.look) }
{
    let admission = match admit(screen.len(), stores.len(), console, number) {
        Ok(admission) => admission,
        Err(refusal) => return refused(console, refusal),
    };
    replied(console, shown(admission.pane))
}
