// A reply as text: letter, refusal, values; numbers decimal, pointers in lower-case hex. Each function writes
// from a place of the buffer on and answers the place after; what the buffer has no room for is left out.
#![tactic(auto)]

ghost use Rattle.std.specs.Prelude.{◌≤◌, length};
ghost use Rattle.model.specs.Replies.{ran_values, progress_values, view_values, verdict, verdict_values, reply_values};
ghost use Rattle.model.specs.Replies.{response};
ghost use Rattle.script_numerals.specs.Numerals.{Wrote};
ghost use Rattle.script_replies.specs.Replies.{values_text, response_text, reply_text, malformed_text};

use model::{FoundFault, Progress, Ran, Refusal, Reply, View};
use script_fields::LINE_FEED;
use script_numerals::{coordinate, flag, pointer, push, value};

// The most bytes that a reply takes.
pub const MOST_REPLY: usize = 160;

// The values of run: commands, status, fault, pixels.
fn ran(out: &mut [u8], at: usize, r: Ran) -> usize
    requires { at ≤ length out.old }
    ensures { Wrote out.old at (values_text (ran_values r)) out.new result }
{
    let commands = value(out, at, r.commands as u64);
    let status = value(out, commands, r.status as u64);
    let fault = value(out, status, r.fault as u64);
    value(out, fault, r.pixels)
}

// The first values of look: status, fault, pointer.
fn progress(out: &mut [u8], at: usize, p: Progress) -> usize
    requires { at ≤ length out.old }
    ensures { Wrote out.old at (values_text (progress_values p)) out.new result }
{
    let status = value(out, at, p.status as u64);
    let fault = value(out, status, p.fault as u64);
    pointer(out, fault, p.pointer)
}

// The values of look: status, fault, pointer, x, y, pick, trap.
fn seen(out: &mut [u8], at: usize, view: View) -> usize
    requires { at ≤ length out.old }
    ensures { Wrote out.old at (values_text (view_values view)) out.new result }
{
    let p = view.progress;
    let first = progress(out, at, p);
    let x = coordinate(out, first, view.position.x);
    let y = coordinate(out, x, view.position.y);
    let pick = flag(out, y, view.pick);
    flag(out, pick, view.trap)
}

// The values of judge: 0 and the commands walked, or a fault's number and its address.
fn judged(out: &mut [u8], at: usize, found: Result<u32, FoundFault>) -> usize
    requires { at ≤ length out.old }
    ensures { Wrote out.old at (values_text (verdict_values (verdict found))) out.new result }
{
    match found {
        Ok(walked) => {
            let clean = value(out, at, 0);
            value(out, clean, walked as u64)
        }
        Err(met) => {
            let found = value(out, at, u8::from(met.fault) as u64);
            pointer(out, found, met.address)
        }
    }
}

// The values of an accepted call.
fn accepted(out: &mut [u8], at: usize, reply: Reply) -> usize
    requires { at ≤ length out.old }
    ensures { Wrote out.old at (values_text (reply_values reply)) out.new result }
{
    match reply {
        Reply::Done => at,
        Reply::Ran(r) => ran(out, at, r),
        Reply::Seen(view) => seen(out, at, view),
        Reply::Value(pixel) => value(out, at, pixel as u64),
        Reply::Judged(found) => judged(out, at, found),
    }
}

// The refusal's number, or 0 and the values.
fn values(out: &mut [u8], at: usize, said: Result<Reply, Refusal>) -> usize
    requires { at ≤ length out.old }
    ensures { Wrote out.old at (response_text (response said)) out.new result }
{
    match said {
        Ok(reply) => {
            let zero = value(out, at, 0);
            accepted(out, zero, reply)
        }
        Err(refusal) => value(out, at, u8::from(refusal) as u64),
    }
}

// The line of a reply.
pub fn reply(out: &mut [u8], at: usize, letter: u8, said: Result<Reply, Refusal>) -> usize
    requires { at ≤ length out.old }
    ensures { Wrote out.old at (reply_text letter (response said)) out.new result }
{
    let first = push(out, at, letter);
    let last = values(out, first, said);
    push(out, last, LINE_FEED)
}

// The line of a ?.
pub fn malformed(out: &mut [u8], at: usize) -> usize
    requires { at ≤ length out.old }
    ensures { Wrote out.old at malformed_text out.new result }
{
    let mark = push(out, at, b'?');
    push(out, mark, LINE_FEED)
}
