// Where a list goes on, stops or faults: the record that NOP, LINK, CALL, RETURN, the end word and a fault
// leave.
ghost use Rattle.std.specs.Prelude.{◌≡◌, ◌≤◌, ◌<◌};
ghost use Rattle.model.specs.Numbers.{fault_number};
ghost use Rattle.model.specs.Record.{with_pointer, with_returns, ended, faulted};
ghost use Rattle.model.specs.Effects.{kept_one, latest, without_latest};

use model::{Fault, Pane, STATUS_ENDED, STATUS_FAULTED};

// NOP: the pointer goes on.
pub fn nop(p: Pane, next: u32) -> Pane
    ensures { result ≡ with_pointer p next }
{
    let mut q = p;
    q.progress.pointer = next;
    q
}

// LINK: the pointer goes to the address.
pub fn link(p: Pane, address: u32) -> Pane
    ensures { result ≡ with_pointer p address }
{
    let mut q = p;
    q.progress.pointer = address;
    q
}

// CALL: the next address is kept, and the pointer goes to the address.
pub fn call(p: Pane, address: u32, next: u32) -> Pane
    requires { p.returns.count < 8 }
    ensures { result ≡ with_pointer (with_returns p (kept_one p.returns next)) address }
{
    let mut returns = p.returns;
    let n = returns.count as usize;
    returns.addresses[n] = next;
    returns.count += 1;
    let mut q = p;
    q.returns = returns;
    q.progress.pointer = address;
    q
}

// RETURN: the pointer goes to the latest address kept, whose slot then holds 0.
pub fn return_from_call(p: Pane) -> Pane
    requires { (0 < p.returns.count) × (p.returns.count ≤ 8) }
    ensures { result ≡ with_pointer (with_returns p (without_latest p.returns)) (latest p.returns) }
{
    let mut returns = p.returns;
    returns.count -= 1;
    let n = returns.count as usize;
    let latest = returns.addresses[n];
    returns.addresses[n] = 0;
    let mut q = p;
    q.returns = returns;
    q.progress.pointer = latest;
    q
}

// The end of the list: the pointer stays.
pub fn ended(p: Pane) -> Pane
    ensures { result ≡ ended p }
{
    let mut q = p;
    q.progress.status = STATUS_ENDED;
    q
}

// A fault: its number is set with the status, and nothing else changes.
pub fn faulted(p: Pane, fault: Fault) -> Pane
    ensures { result ≡ faulted p (fault_number fault) }
{
    let mut q = p;
    q.progress.status = STATUS_FAULTED;
    q.progress.fault = u8::from(fault);
    q
}
