// Start: a pane set to run from an address of its store.
ghost use Rattle.std.specs.Prelude.{◌≡◌};
ghost use Rattle.model.specs.Calls.{exec, on, started};
ghost use Rattle.model.specs.Calls as calls;
ghost use Rattle.call_common.specs.Answers.{state, answer};

use call_common::{Answered, admit, check_start, refused, with_record};
use model::{Console, Pane, Progress, Reply, Returns, STATUS_RUNNING};

// The pane record with the pointer at the address, status 1, fault 0, no return addresses, the rest kept.
fn started(pane: Pane, address: u32) -> Pane
    ensures { result ≡ started pane address }
{
    Pane {
        progress: Progress {
            status: STATUS_RUNNING,
            fault: 0,
            pointer: address,
        },
        returns: Returns {
            addresses: [0; 8],
            count: 0,
        },
        ..pane
    }
}

// Sets the pane with a number to run from the address on; refused 3 if that is odd, 2 if it is not below the
// store's length.
pub fn start(screen: &[u8], stores: &[u8], console: Console, number: u32, address: u32) -> Answered
    ensures { answer result screen.now stores.now
        ≡ exec (state console screen.now stores.now) (on number (calls.start address)) }
{
    let admission = match admit(screen.len(), stores.len(), console, number) {
        Ok(admission) => admission,
        Err(refusal) => return refused(console, refusal),
    };
    if let Err(refusal) = check_start(admission.row, address) {
        return refused(console, refusal);
    }
    let pane = started(admission.pane, address);
    with_record(console, number, pane, Ok(Reply::Done))
}
