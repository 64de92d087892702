// Peek: one byte of a pane's store.
ghost use Rattle.std.specs.Prelude.{◌≡◌, ◌<◌, length, get_or};
ghost use Rattle.model.specs.Numbers.{refused_by};
ghost use Rattle.model.specs.Calls.{exec, on, own_refusal};
ghost use Rattle.model.specs.Calls as calls;
ghost use Rattle.model.specs.declared.Pane.{Pane};
ghost use Rattle.call_common.specs.Answers.{state, answer};

use call_common::{Answered, admit, refused, replied};
use model::{Console, Refusal, Reply, Row};

// Peek's own check: refused 2 if the address is not below the store's length.
#[tactic(auto, unfolding(model::specs::Calls::own_refusal))]
fn check_peek(row: Row, address: u32) -> Result<(), Refusal>
    ensures { (p : Pane) → refused_by result ≡ own_refusal row p (calls.peek address) }
{
    if row.len <= address {
        return Err(Refusal::End);
    }
    Ok(())
}

// The byte at an address of a store.
fn byte_at(store: &[u8], address: usize) -> u8
    requires { address < length store.now }
    ensures { result ≡ get_or store.now address 0 }
{
    store[address]
}

// Answers the byte at an address of the store of the pane with a number; changes nothing; refused 2 past the
// store's end. The pane's own part of the stores is lent on, and nothing else of it.
pub fn peek(screen: &[u8], stores: &[u8], console: Console, number: u32, address: u32) -> Answered
    ensures { answer result screen.now stores.now
        ≡ exec (state console screen.now stores.now) (on number (calls.peek address)) }
{
    let admission = match admit(screen.len(), stores.len(), console, number) {
        Ok(admission) => admission,
        Err(refusal) => return refused(console, refusal),
    };
    if let Err(refusal) = check_peek(admission.row, address) {
        return refused(console, refusal);
    }
    let start = admission.row.start as usize;
    let end = start + admission.row.len as usize;
    let value = byte_at(&stores[start..end], address as usize);
    replied(console, Reply::Value(value))
}
