// The commands that a batch has, by their first words, and where each leaves the pointer and the position.
ghost use Rattle.std.specs.Prelude.{◌≡◌, ◌+◌, ◌≤◌, ◌<◌, ◌^◌, length, IfSome};
ghost use Rattle.batches.specs.Heads.{HeadAt, OpcodeFor, moved_to, moved_by, only_moved_by};

use decoder::parameter;
use draw_lines::is_span;
use model::Point;

// A command that a batch has, with its words.
#[derive(Clone, Copy)]
pub enum Head {
    Line { dx: u16, dy: u16 },
    Circle { radius: u16 },
    AbsMov { x: u16, y: u16 },
    RelMov { dx: u16, dy: u16 },
    Link { address: u32 },
    Nop,
}

// Where a list goes on and from which position.
#[derive(Clone, Copy)]
pub struct Move {
    pub pointer: u32,
    pub position: Point,
}

// The head of a command by its opcode, its words being a and b. A circle with a fault is none of a batch's, nor is a
// line that is drawn as a span. By the decoder's table of all opcodes a circle outside the clip takes 7.5 ns, not 5.1.
#[tactic(auto, unfolding(model::specs::Commands::opcode_of, model::specs::Commands::command_of))]
fn head_for(op: u8, a: u16, b: u16) -> Option<Head>
    ensures { OpcodeFor op a b result }
{
    match op {
        0x54..=0x55 if !is_span(a, b) => Some(Head::Line { dx: a, dy: b }),
        0x8E if !coordinates::is_negative(a) => Some(Head::Circle { radius: a }),
        0x4F => Some(Head::AbsMov { x: a, y: b }),
        0x52 => Some(Head::RelMov { dx: a, dy: b }),
        0x02 => Some(Head::Link {
            address: a as u32 + 65536 * ((b % 64) as u32),
        }),
        0x03 => Some(Head::Nop),
        _ => None,
    }
}

// The head of the command at the pointer, if three words can be read there and the first does not end the list.
#[tactic(auto, using(crate::proofs::HeadLaws::head_told))]
pub fn head_at(store: &[u8], pointer: u32) -> Option<Head>
    requires { length store.now ≤ 2097152 }
    ensures { HeadAt store.now pointer result }
{
    let at = pointer as usize;
    if at % 2 == 1 {
        return None;
    }
    if store.len() < at + 6 {
        return None;
    }
    let word = words::word(store, at);
    if word % 2 == 1 {
        return None;
    }
    let a = parameter(store, at, 0);
    let b = parameter(store, at, 1);
    head_for((word / 256) as u8, a, b)
}

// The list goes on here, from this position.
fn moved_to(pointer: u32, position: Point) -> Move
    ensures { result ≡ moved_to pointer position }
{
    Move { pointer, position }
}

// What ABS_MOV, REL_MOV, LINK and NOP leave, by the head of a command; no other only moves.
pub fn only_moved_by(pointer: u32, from: Point, head: Option<Head>) -> Option<Move>
    requires { IfSome head (λ _. pointer + 6 < 2 ^ 32) }
    ensures { result ≡ only_moved_by pointer from head }
{
    match head? {
        Head::Line { .. } | Head::Circle { .. } => None,
        Head::AbsMov { x, y } => Some(moved_to(pointer + 6, Point { x, y })),
        Head::RelMov { dx, dy } => Some(moved_to(pointer + 6, coordinates::move_by(from, dx, dy))),
        Head::Link { address } => Some(moved_to(address, from)),
        Head::Nop => Some(moved_to(pointer + 2, from)),
    }
}

// Where a command leaves the pointer and the position, by its head.
pub fn moved_by(pointer: u32, from: Point, head: Head) -> Move
    requires { pointer + 6 < 2 ^ 32 }
    ensures { result ≡ moved_by pointer from head }
{
    if let Some(next) = only_moved_by(pointer, from, Some(head)) {
        return next;
    }
    match head {
        Head::Line { dx, dy } => moved_to(pointer + 6, coordinates::move_by(from, dx, dy)),
        // CIRCLE: all but this and LINE only move
        _ => moved_to(pointer + 4, from),
    }
}
