// Batches: lines, circles and moves that follow one another in a list, done on one target. What the record says of
// drawing is looked up once a batch, and from command to command only the pointer and the position change.
#![tactic(auto)]

pub mod heads; // heads.rt: the commands that a batch has, by their first words

ghost use Rattle.std.specs.Prelude.{◌≡◌, true, false, ◌≤◌, length};
ghost use Rattle.model.specs.Faults.{no_bitmap};
ghost use Rattle.model.specs.Numbers.{status_running};
ghost use Rattle.canvas.specs.Targets.{Ready};
ghost use Rattle.stamps.specs.Stamps.{StampsOf};
ghost use Rattle.perform.specs.Performing.{Sound};
ghost use Rattle.batches.specs.Batches.{Batches, BatchesOn, Drawable};

use bitmaps::no_bitmap;
use canvas::Target;
use draw_circles::draw_circle;
use draw_lines::{is_span, trace_of, whole_line};
use heads::{Head, head_at, only_moved_by};
use model::{Command, Frame, Pane, Point};
use traces::draw_trace;

// How far a batch came: the pointer and the position, the commands done, and how many pixels they drew.
#[derive(Clone, Copy)]
pub struct Batch {
    pub pointer: u32,
    pub position: Point,
    pub count: u32,
    pub paint: u64,
}

// The commands of a batch from a pointer and a position on, on a target, by the stamps of its pen. No function stands
// between this loop and those that draw: each that takes a target copies it.
fn batch_on(
    screen: &mut [u8],
    store: &mut [u8],
    stamps: &[u8],
    t: Target,
    at: u32,
    from: Point,
    budget: u32,
) -> Batch
    requires { Ready t (length screen.old) (length store.old) × (t.picking ≡ false)
        × StampsOf t.pen t.area.surface.bits stamps.now × (length store.old ≤ 2097152) }
    ensures { BatchesOn t at from budget screen.old store.old
        result screen.new store.new }
{
    let mut pointer = at;
    let mut position = from;
    let mut paint: u64 = 0;
    for count in 0..budget {
        let head = head_at(store, pointer);
        match head {
            Some(Head::Line { dx, dy }) => {
                let line = trace_of(position, whole_line(dx, dy));
                paint += draw_trace(screen, store, stamps, t, line, 0) as u64;
                position = coordinates::move_by(position, dx, dy);
                pointer += 6;
            }
            Some(Head::Circle { radius }) => {
                let r = coordinates::magnitude(radius);
                paint += draw_circle(screen, store, stamps, t, position, r) as u64;
                pointer += 4;
            }
            _ => {
                let Some(next) = only_moved_by(pointer, position, head) else {
                    return Batch {
                        pointer,
                        position,
                        count,
                        paint,
                    };
                };
                pointer = next.pointer;
                position = next.position;
            }
        }
    }
    Batch {
        pointer,
        position,
        count: budget,
        paint,
    }
}

// The commands of a batch from the pointer of a pane on: as many as follow one another and the budget allows.
fn draw_batch(screen: &mut [u8], store: &mut [u8], f: Frame, p: Pane, budget: u32) -> Batch
    requires { Drawable f.geometry f.row p (length screen.old) (length store.old) }
    ensures { Batches f.geometry f.row budget p screen.old store.old
        result screen.new store.new }
{
    let t = canvas::target_of(f, p);
    let stamps = traces::stamps_of(t);
    let from = p.position;
    batch_on(screen, store, &stamps, t, p.progress.pointer, from, budget)
}

// Whether a command is worth a batch: a line that is traced, or a circle. Nothing but time depends on the answer.
fn is_stroke(c: Command) -> bool {
    match c {
        Command::Line { dx, dy } => !is_span(dx, dy),
        Command::Circle { radius: _ } => true,
        _ => false,
    }
}

// Whether a batch begins with a command: only where it draws.
fn begins_batch(p: Pane, c: Command) -> bool
    ensures { result ≡ true → (no_bitmap p.bitmap ≡ false) × (p.flags.picking ≡ false) }
{
    if !is_stroke(c) {
        return false;
    }
    if p.flags.picking {
        return false;
    }
    let bitmap = p.bitmap;
    !no_bitmap(bitmap)
}

// A batch from the pointer on, where the command there begins one.
#[tactic(auto, using(crate::proofs::OnwardLaws::onward_none))]
pub fn batch_from(
    screen: &mut [u8],
    store: &mut [u8],
    f: Frame,
    p: Pane,
    c: Command,
    budget: u32,
) -> Batch
    requires { Sound f.geometry f.row p (length screen.old) (length store.old)
        × (p.progress.status ≡ status_running) }
    ensures { Batches f.geometry f.row budget p screen.old store.old
        result screen.new store.new }
{
    if begins_batch(p, c) {
        return draw_batch(screen, store, f, p, budget);
    }
    let position = p.position;
    Batch {
        pointer: p.progress.pointer,
        position,
        count: 0,
        paint: 0,
    }
}

#[cfg(test)]
mod tests;
