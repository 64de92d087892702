// Every command, done: a command that draws nothing leaves another record, and what follows a drawing stands
// here once.
#![tactic(auto)]

pub mod settling; // settling.rt: the commands that draw nothing
pub mod drawing; // drawing.rt: the drawing commands, on the pane's target

ghost use Rattle.std.specs.Prelude.{◌≡◌, cond, ◌&&◌, length};
ghost use Rattle.model.specs.Numbers.{status_trapped};
ghost use Rattle.perform.specs.Performing.{Allowed, Performs, quietly, drew_on};

use canvas::Drawn;
use drawing::draw;
use model::{Command, Frame, Pane, STATUS_TRAPPED};
use settling::settle;

// What a command leaves beside both buffers: the record, and how many pixels it drew.
#[derive(Clone, Copy)]
pub struct Performed {
    pub pane: Pane,
    pub paint: u64,
}

// A command that draws nothing leaves this record.
fn quiet(pane: Pane) -> Performed
    ensures { result ≡ quietly pane }
{
    Performed { pane, paint: 0 }
}

// The pixels drawn: those that were visible, and none in pick mode.
fn paint(picking: bool, hits: usize) -> u64
    ensures { result ≡ cond picking 0 hits }
{
    if picking {
        return 0;
    }
    hits as u64
}

// The status after a drawing: 4 with the trap switch on where a T was met (02, A.7), or as before.
fn status_after(p: Pane, trap: bool) -> u8
    ensures { result ≡ cond (p.flags.switch && trap) status_trapped p.progress.status }
{
    if p.flags.switch & trap {
        return STATUS_TRAPPED;
    }
    p.progress.status
}

// A drawing command leaves the pointer behind it, the status, the position, and the flags: in pick mode the pick
// flag is set if a pixel was visible.
fn drew(p: Pane, next: u32, d: Drawn) -> Performed
    ensures { result ≡ drew_on p next d }
{
    let pick = p.flags.pick | (p.flags.picking & (0 < d.hits));
    let trap = p.flags.trap | d.trap;
    let status = status_after(p, d.trap);
    let position = d.position;
    let paint = paint(p.flags.picking, d.hits);
    let mut q = p;
    q.flags.pick = pick;
    q.flags.trap = trap;
    q.position = position;
    q.progress.status = status;
    q.progress.pointer = next;
    Performed { pane: q, paint }
}

// A command that is free of faults, done: the record answered has the address after it.
pub fn perform(
    screen: &mut [u8],
    store: &mut [u8],
    f: Frame,
    p: Pane,
    c: Command,
    next: u32,
) -> Performed
    requires { Allowed f.geometry f.row p (length screen.old) store.old c }
    ensures { Performs f.geometry f.row p next c screen.old store.old
        result screen.new store.new }
{
    match c {
        Command::Point { dx: _, dy: _ }
        | Command::Line { dx: _, dy: _ }
        | Command::Rect { dx: _, dy: _ }
        | Command::BitBlt { block: _ }
        | Command::Polyline { array: _, count: _ }
        | Command::Circle { radius: _ }
        | Command::Char {
            string: _,
            count: _,
            transparent: _,
        }
        | Command::BitBltM {
            address: _,
            xmax: _,
            ymax: _,
            block: _,
        }
        | Command::ScanLines { array: _, count: _ } => {
            let d = draw(screen, store, f, p, c);
            drew(p, next, d)
        }
        _ => {
            let row = f.row;
            quiet(settle(row, p, c, next))
        }
    }
}
