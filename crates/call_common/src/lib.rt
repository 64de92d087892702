// What the calls of the console have in common: admission, what they answer, a refusal, the address where a list
// begins, a pane record replaced, and a fresh one.
#![tactic(auto)]

ghost use Rattle.std.specs.Prelude.{◌≡◌, ◌<◌, Ok};
ghost use Rattle.model.specs.Numbers.{refused_by};
ghost use Rattle.model.specs.Record.{fresh};
ghost use Rattle.model.specs.Calls.{start_refusal};
ghost use Rattle.call_common.specs.Admissions.{Admits};
ghost use Rattle.call_common.specs.Answers.{turned_away, unchanged, replaced};

use model::{
    Bitmap, Clip, Console, Flags, Font, Pane, Pen, Point, Progress, Refusal, Reply, Returns, Row,
    STATUS_PARKED, Scissor, Text,
};
use refusals::call::check_call;

// The operation "replace": a new bit is the source bit.
const REPLACE: u8 = 5;

// What a call on a pane begins with: the pane's row and record.
#[derive(Clone, Copy)]
pub struct Admission {
    pub row: Row,
    pub pane: Pane,
}

// Admits a call on the pane with a number, or else gives the first refusal common to all calls, by the record and the
// lengths of the two buffers.
pub fn admit(
    screen: usize,
    stores: usize,
    console: Console,
    number: u32,
) -> Result<Admission, Refusal>
    ensures { Admits console screen stores number result }
{
    check_call(screen, stores, console, number)?;
    let k = number as usize;
    let row = console.rows[k];
    let pane = console.panes[k];
    Ok(Admission { row, pane })
}

// Whether a list may begin at an address: refused 3 if it is odd, 2 if it is not below the store's length.
pub fn check_start(row: Row, address: u32) -> Result<(), Refusal>
    ensures { refused_by result ≡ start_refusal row address }
{
    if address % 2 == 1 {
        return Err(Refusal::Odd);
    }
    if row.len <= address {
        return Err(Refusal::End);
    }
    Ok(())
}

// What a call answers: the console record after it, and its reply, which is one of the paper's or why it refused, or
// whatever else a caller has for one.
#[derive(Clone, Copy)]
pub struct Answered<T = Result<Reply, Refusal>> {
    pub console: Console,
    pub reply: T,
}

// A refused call: the record as it came, and the refusal, of the paper or a number of any kind.
pub fn refused<R>(console: Console, refusal: R) -> Answered<Result<Reply, R>>
    ensures { result ≡ turned_away console refusal }
{
    Answered {
        console,
        reply: Err(refusal),
    }
}

// An accepted call that keeps the record.
pub fn replied(console: Console, reply: Reply) -> Answered
    ensures { result ≡ unchanged console (Ok reply) }
{
    let reply = Ok(reply);
    Answered { console, reply }
}

// The record with that of the pane with a number replaced, all else kept, and a reply, a refusal too.
pub fn with_record<T>(console: Console, number: u32, pane: Pane, reply: T) -> Answered<T>
    requires { number < 8 }
    ensures { result ≡ replaced console number pane reply }
{
    let k = number as usize;
    let mut next = console;
    next.panes[k] = pane;
    Answered {
        console: next,
        reply,
    }
}

// The record of a pane that has done nothing.
pub fn fresh() -> Pane
    ensures { result ≡ fresh }
{
    Pane {
        progress: Progress {
            status: STATUS_PARKED,
            fault: 0,
            pointer: 0,
        },
        position: Point { x: 0, y: 0 },
        bitmap: Bitmap::Absent,
        clip: Clip {
            xmin: 0,
            ymin: 0,
            xmax: 0,
            ymax: 0,
        },
        scissor: Scissor {
            left: 0,
            top: 0,
            width: 0,
            height: 0,
        },
        pen: Pen {
            fore: 0,
            back: 0,
            op: REPLACE,
            mask: 0xFFFF,
            pattern: 0xFFFF,
            transparent: false,
        },
        text: Text {
            spacing: 0,
            path: 0,
            rotation: 0,
            font: Font::Absent,
        },
        flags: Flags {
            picking: false,
            pick: false,
            trap: false,
            switch: false,
        },
        returns: Returns {
            addresses: [0; 8],
            count: 0,
        },
    }
}

#[cfg(test)]
mod tests;
