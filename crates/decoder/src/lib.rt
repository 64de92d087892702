// What stands at the pointer: a command with its words, the end, or a fault.
#![tactic(auto)]

ghost use Rattle.std.specs.Prelude.{◌≡◌, ◌+◌, ◌*◌, ◌%◌, ◌≤◌, eqb, length};
ghost use Rattle.model.specs.Words.{address};
ghost use Rattle.model.specs.Commands.{known, opcode_of, parameter, command_of, decode};
ghost use Rattle.decoder.specs.Counts.{word_count, block_at};

use model::{Block, Command, Decoded, Fault, Opcode, OpcodeEntry};

// A known opcode with the number of its parameter words.
fn known(opcode: Opcode, words: u8) -> Option<OpcodeEntry>
    ensures { result ≡ known opcode words }
{
    Some(OpcodeEntry { opcode, words })
}

// What an opcode number names and how many parameter words it has; none if it is unknown.
#[tactic(auto, unfolding(model::specs::Commands::opcode_of))]
pub fn opcode_of(op: u8) -> Option<OpcodeEntry>
    ensures { result ≡ opcode_of op }
{
    match op {
        0x02 => known(Opcode::Link, 2),
        0x03 => known(Opcode::Nop, 0),
        0x06..=0x07 => known(Opcode::DefTexture(op == 0x07), 1),
        0x0A..=0x0B => known(Opcode::DefCharSet(op == 0x0B), 2),
        0x0F => known(Opcode::Call, 2),
        0x17 => known(Opcode::Return, 0),
        0x1A => known(Opcode::DefBitmap, 5),
        0x3D => known(Opcode::DefColors, 2),
        0x41 => known(Opcode::DefLogicalOp, 2),
        0x44 => known(Opcode::EnterPick, 0),
        0x45 => known(Opcode::ExitPick, 0),
        0x46 => known(Opcode::DefClipRect, 4),
        0x4D => known(Opcode::DefSpace, 1),
        0x4E => known(Opcode::DefCharOrient, 1),
        0x4F => known(Opcode::AbsMov, 2),
        0x52 => known(Opcode::RelMov, 2),
        0x53 => known(Opcode::Point, 2),
        0x54..=0x55 => known(Opcode::Line, 2),
        0x58 => known(Opcode::Rect, 2),
        0x64 => known(Opcode::BitBlt, 4),
        0x74 => known(Opcode::Polyline, 3),
        0x8E => known(Opcode::Circle, 1),
        0xA6..=0xA9 => known(Opcode::Char(op % 2 == 1), 3),
        0xAE => known(Opcode::BitBltM, 8),
        0xBA => known(Opcode::ScanLines, 3),
        _ => None,
    }
}

// Parameter word i, from 0, of the command at an address.
pub fn parameter(store: &[u8], at: usize, i: usize) -> u16
    requires { at + 2 + 2 * i + 2 ≤ length store.now }
    ensures { result ≡ parameter store.now at i }
{
    words::word(store, at + 2 + 2 * i)
}

// The address in the first two parameter words of the command at an address: low word, then the low six bits
// of the high one.
fn address(store: &[u8], at: usize) -> u32
    requires { at + 6 ≤ length store.now }
    ensures { result ≡ address (parameter store.now at 0) (parameter store.now at 1) }
{
    let low = parameter(store, at, 0);
    let high = parameter(store, at, 1);
    low as u32 + 65536 * ((high % 64) as u32)
}

// A copy's source rectangle: its four words from parameter word i on.
fn block(store: &[u8], at: usize, i: usize) -> Block
    requires { at + 2 + 2 * (i + 4) ≤ length store.now }
    ensures { result ≡ block_at store.now at i }
{
    Block {
        x: parameter(store, at, i),
        y: parameter(store, at, i + 1),
        dx: parameter(store, at, i + 2),
        dy: parameter(store, at, i + 3),
    }
}

// The command at an address with the words that its opcode asks for, all of them in the store.
#[tactic(auto, unfolding(model::specs::Commands::command_of))]
fn command(store: &[u8], at: usize, op: Opcode) -> Command
    requires { at + 2 + 2 * word_count op ≤ length store.now }
    ensures { result ≡ command_of op (parameter store.now at) }
{
    match op {
        Opcode::Link => Command::Link {
            address: address(store, at),
        },
        Opcode::Nop => Command::Nop,
        Opcode::DefTexture(t) => Command::DefTexture {
            pattern: parameter(store, at, 0),
            transparent: t,
        },
        Opcode::DefCharSet(t) => Command::DefCharSet {
            base: address(store, at),
            bytes: t,
        },
        Opcode::Call => Command::Call {
            address: address(store, at),
        },
        Opcode::Return => Command::Return,
        Opcode::DefBitmap => Command::DefBitmap {
            address: address(store, at),
            xmax: parameter(store, at, 2),
            ymax: parameter(store, at, 3),
            bits: parameter(store, at, 4),
        },
        Opcode::DefColors => Command::DefColors {
            fore: parameter(store, at, 0),
            back: parameter(store, at, 1),
        },
        Opcode::DefLogicalOp => Command::DefLogicalOp {
            mask: parameter(store, at, 0),
            code: parameter(store, at, 1),
        },
        Opcode::EnterPick => Command::EnterPick,
        Opcode::ExitPick => Command::ExitPick,
        Opcode::DefClipRect => Command::DefClipRect {
            xmin: parameter(store, at, 0),
            ymin: parameter(store, at, 1),
            xmax: parameter(store, at, 2),
            ymax: parameter(store, at, 3),
        },
        Opcode::DefSpace => Command::DefSpace {
            spacing: parameter(store, at, 0),
        },
        Opcode::DefCharOrient => Command::DefCharOrient {
            orientation: parameter(store, at, 0),
        },
        Opcode::AbsMov => Command::AbsMov {
            x: parameter(store, at, 0),
            y: parameter(store, at, 1),
        },
        Opcode::RelMov => Command::RelMov {
            dx: parameter(store, at, 0),
            dy: parameter(store, at, 1),
        },
        Opcode::Point => Command::Point {
            dx: parameter(store, at, 0),
            dy: parameter(store, at, 1),
        },
        Opcode::Line => Command::Line {
            dx: parameter(store, at, 0),
            dy: parameter(store, at, 1),
        },
        Opcode::Rect => Command::Rect {
            dx: parameter(store, at, 0),
            dy: parameter(store, at, 1),
        },
        Opcode::BitBlt => Command::BitBlt {
            block: block(store, at, 0),
        },
        Opcode::Polyline => Command::Polyline {
            array: address(store, at),
            count: parameter(store, at, 2),
        },
        Opcode::Circle => Command::Circle {
            radius: parameter(store, at, 0),
        },
        Opcode::Char(t) => Command::Char {
            string: address(store, at),
            count: parameter(store, at, 2),
            transparent: t,
        },
        Opcode::BitBltM => Command::BitBltM {
            address: address(store, at),
            xmax: parameter(store, at, 2),
            ymax: parameter(store, at, 3),
            block: block(store, at, 4),
        },
        Opcode::ScanLines => Command::ScanLines {
            array: address(store, at),
            count: parameter(store, at, 2),
        },
    }
}

// Bit 0 (GECL) of a command's first word ends the list, whatever the opcode: HALT is any word with it set.
fn ends(word: u16) -> bool
    ensures { result ≡ eqb (word % 2) 1 }
{
    word % 2 == 1
}

// What stands at the pointer: "A pointer that is odd or whose word is outside the store gives fault 21", and so do
// parameter words outside it; "An unknown opcode gives 20"; the end, looked at before the opcode; else the command, with
// the address after it.
pub fn decode(store: &[u8], pointer: u32) -> Decoded
    requires { length store.now ≤ 2097152 }
    ensures { result ≡ decode (length store.now) store.now pointer }
{
    let at = pointer as usize;
    if (at % 2 == 1) | (store.len() < at + 2) {
        return Decoded::Fault(Fault::Fetch);
    }
    let word = words::word(store, at);
    if ends(word) {
        return Decoded::End;
    }
    let Some(entry) = opcode_of((word / 256) as u8) else {
        return Decoded::Fault(Fault::Opcode);
    };
    let next = at + 2 + 2 * (entry.words as usize);
    if store.len() < next {
        return Decoded::Fault(Fault::Fetch);
    }
    Decoded::Do(command(store, at, entry.opcode), next as u32)
}
