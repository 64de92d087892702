// Put: bytes written into a pane's store.
ghost use Rattle.std.specs.Prelude.{◌≡◌, ◌+◌, ◌≤◌, length};
ghost use Rattle.model.specs.Numbers.{refused_by};
ghost use Rattle.model.specs.Calls.{exec, on, own_refusal, in_part};
ghost use Rattle.model.specs.Calls as calls;
ghost use Rattle.model.specs.declared.Pane.{Pane};
ghost use Rattle.call_common.specs.Answers.{state, answer};

use call_common::{Answered, admit, refused, replied};
use model::{Console, Refusal, Reply, Row};

// Put's own check: refused 2 if the bytes, from the address on, pass the store's end.
#[tactic(auto, unfolding(model::specs::Calls::own_refusal))]
fn check_put(row: Row, address: u32, bytes: &[u8]) -> Result<(), Refusal>
    ensures { (p : Pane) → refused_by result ≡ own_refusal row p (calls.put address bytes.now) }
{
    if row.len < address {
        return Err(Refusal::End);
    }
    let room = (row.len - address) as usize;
    if room < bytes.len() {
        return Err(Refusal::End);
    }
    Ok(())
}

// The bytes stand in the store from the address on, all else kept.
fn write(store: &mut [u8], address: usize, bytes: &[u8])
    requires { address + length bytes.now ≤ length store.old }
    ensures { store.new
        ≡ in_part store.old address (length bytes.now) bytes.now }
{
    for (i, byte) in bytes.iter().enumerate() {
        store[address + i] = *byte;
    }
}

// Writes the bytes into the store of the pane with a number, from the address on; refused 2 if they pass its
// end. The pane's own part of the stores is lent on, and nothing else of it.
pub fn put(
    screen: &[u8],
    stores: &mut [u8],
    console: Console,
    number: u32,
    address: u32,
    bytes: &[u8],
) -> Answered
    ensures { answer result screen.now stores.new
        ≡ exec (state console screen.now stores.old)
        (on number (calls.put address bytes.now)) }
{
    let admission = match admit(screen.len(), stores.len(), console, number) {
        Ok(admission) => admission,
        Err(refusal) => return refused(console, refusal),
    };
    if let Err(refusal) = check_put(admission.row, address, bytes) {
        return refused(console, refusal);
    }
    let start = admission.row.start as usize;
    let end = start + admission.row.len as usize;
    write(&mut stores[start..end], address as usize, bytes);
    replied(console, Reply::Done)
}
