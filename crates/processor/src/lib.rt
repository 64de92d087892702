// The graphics processor: what stands at the pointer is decoded, checked and done; a run does so while the
// status is 1 and budget is left.
#![tactic(auto)]

ghost use Rattle.std.specs.Prelude.{◌≡◌, length};
ghost use Rattle.model.specs.Numbers.{fault_met};
ghost use Rattle.model.specs.Commands.{Addressed};
ghost use Rattle.model.specs.Faults.{context_of, fault_of};
ghost use Rattle.batches.specs.Batches.{reached};
ghost use Rattle.faults.specs.Checking.{Checkable};
ghost use Rattle.perform.specs.Performing.{Sound};
ghost use Rattle.processor.specs.Obeying.{Advancing, Advances, Obeys, Runs, finished_with, stopped_of};

use batches::{Batch, batch_from};
use faults::{fault_of, may_fault};
use model::{Command, Context, Decoded, Fault, Frame, Pane, STATUS_RUNNING};
use perform::perform;
use state_commands::control;

// The record after a command or a run, the commands done, and how many pixels they drew.
#[derive(Clone, Copy)]
pub struct Finished {
    pub pane: Pane,
    pub count: u32,
    pub paint: u64,
}

// What a command or a run answers.
fn finish_with(pane: Pane, count: u32, paint: u64) -> Finished
    ensures { result ≡ finished_with pane count paint }
{
    Finished { pane, count, paint }
}

// A command's fault, if it has one; where it can't, what faults depend on is not gathered.
fn check(store: &[u8], f: Frame, p: Pane, c: Command) -> Result<(), Fault>
    requires { Checkable f.geometry f.row (context_of p) (length store.now) × Addressed c }
    ensures { fault_met result ≡ fault_of f.geometry f.row (context_of p) store.now c }
{
    if may_fault(c) {
        let bitmap = p.bitmap;
        let text = p.text;
        let font = text.font;
        let x = Context {
            bitmap,
            font,
            kept: p.returns.count,
        };
        return fault_of(store, f, x, c);
    }
    Ok(())
}

// A command tried: faulty, it is only recorded, and else it is done and counts one.
fn obey(screen: &mut [u8], store: &mut [u8], f: Frame, p: Pane, c: Command, next: u32) -> Finished
    requires { Sound f.geometry f.row p (length screen.old) (length store.old) × Addressed c }
    ensures { Obeys f.geometry f.row p next c screen.old store.old
        result screen.new store.new }
{
    if let Err(fault) = check(store, f, p, c) {
        return finish_with(control::faulted(p, fault), 0, 0);
    }
    let d = perform(screen, store, f, p, c, next);
    finish_with(d.pane, 1, d.paint)
}

// A pane after a batch.
fn after_batch(p: Pane, b: Batch) -> Finished
    ensures { result ≡ finished_with (reached p b.pointer b.position) b.count b.paint }
{
    let position = b.position;
    let mut pane = p;
    pane.position = position;
    pane.progress.pointer = b.pointer;
    finish_with(pane, b.count, b.paint)
}

// A batch from the pointer on, and where there is none the command there, tried by itself.
fn advance(
    screen: &mut [u8],
    store: &mut [u8],
    f: Frame,
    p: Pane,
    c: Command,
    next: u32,
    budget: u32,
) -> Finished
    requires { Advancing f.geometry f.row p (length screen.old) store.old c next budget }
    ensures { Advances f.geometry f.row budget p screen.old store.old
        result screen.new store.new }
{
    let b = batch_from(screen, store, f, p, c, budget);
    if 0 < b.count {
        return after_batch(p, b);
    }
    obey(screen, store, f, p, c, next)
}

// The record after an end word, or after a fault of the decoder.
fn stopped(p: Pane, d: Decoded) -> Pane
    ensures { result ≡ stopped_of p d }
{
    match d {
        Decoded::End => control::ended(p),
        Decoded::Fault(fault) => control::faulted(p, fault),
        Decoded::Do(_, _) => p,
    }
}

// Commands decoded, checked and done while the status is 1 and budget is left. An end word, or a fault of the
// decoder, ends the run.
pub fn run(screen: &mut [u8], store: &mut [u8], f: Frame, p: Pane, budget: u32) -> Finished
    requires { Sound f.geometry f.row p (length screen.old) (length store.old) }
    ensures { Runs f.geometry f.row budget p screen.old store.old
        result screen.new store.new }
{
    let mut q = p;
    let mut count: u32 = 0;
    let mut paint: u64 = 0;
    let mut rest = budget;
    // how much of the budget goes at once is known only after it is done, so no range says how often
    while 0 < rest {
        if q.progress.status != STATUS_RUNNING {
            return finish_with(q, count, paint);
        }
        let d = decoder::decode(store, q.progress.pointer);
        let Decoded::Do(c, next) = d else {
            let end = stopped(q, d);
            return finish_with(end, count, paint);
        };
        let s = advance(screen, store, f, q, c, next, rest);
        q = s.pane;
        count += s.count;
        paint += s.paint;
        // a batch takes as many of the budget as it did commands, a fault takes one
        rest -= u32::max(1, s.count);
    }
    finish_with(q, count, paint)
}
