// What a line of a script says: its letter, and the values of its fields.
#![tactic(auto)]

ghost use Rattle.std.specs.Prelude.{◌≡◌, ◌≤◌, length, take};
ghost use Rattle.script_fields.specs.Fields.{fields_of, most_script, most_bytes};
ghost use Rattle.script_lines.specs.Lines.{has, form_of, saying, line_of, line_said};

use model::Geometry;
use script_fields::{DECIMAL, HEX, bytes, field, numbers};

// The letters of the lines before the calls: the screen, a pane, set-up.
const SCREEN: u8 = b's';

const PANE: u8 = b'p';

pub const OPEN: u8 = b'o';

// The letters of the calls; those of peek, clear, judge and switch are in the language of `calls` alone.
const PUT: u8 = b'w';

const START: u8 = b'g';

const RUN: u8 = b'r';

const LOOK: u8 = b'l';

const PIXEL: u8 = b'x';

const PEEK: u8 = b'k';

const CLEAR: u8 = b'c';

const JUDGE: u8 = b'j';

const SWITCH: u8 = b't';

// The two languages: that of the program `panes`, and that of `calls`, which has the letters `k`, `c`, `j` and
// `t` for peek, clear, judge and switch besides.
#[derive(Clone, Copy)]
pub enum Language {
    Panes,
    Calls,
}

// A call on a pane with its values: put (address, how many bytes), start (address), run (budget), look,
// pixel (x, y), peek (address), clear, judge (address), switch (value). The bytes of a put stand at the start
// of a buffer beside it.
#[derive(Clone, Copy)]
pub enum Call {
    Put(u32, usize),
    Start(u32),
    Run(u32),
    Look,
    Pixel(u32, u32),
    Peek(u32),
    Clear,
    Judge(u32),
    Switch(u32),
}

// A line: the screen, a pane, set-up, or a call under its letter on a pane. The letter is the text's own byte: to
// tell it from the call would take a second table of the letters.
#[derive(Clone, Copy)]
pub enum Line {
    Screen(Geometry),
    Pane {
        left: u32,
        top: u32,
        width: u32,
        height: u32,
        len: u32,
    },
    Open,
    Ask(u8, u32, Call),
}

// The bases of a pane and an address, which is hex.
const PANE_AND_ADDRESS: [u32; 2] = [DECIMAL, HEX];

// Whether a language has a letter, if either has it.
fn has(language: Language, letter: u8) -> bool
    ensures { result ≡ has language letter }
{
    match language {
        Language::Panes => !matches!(letter, PEEK | CLEAR | JUDGE | SWITCH),
        Language::Calls => true,
    }
}

// How a line is read, by its letter: how many fields follow the letter, and the bases of the numbers that are the
// first of them.
#[tactic(auto, unfolding(crate::specs::Lines::form_in))]
fn reading_of(letter: u8) -> (usize, &'static [u32])
    ensures fields { result.0 ≡ (form_of letter).fields }
    ensures bases { result.1.now ≡ (form_of letter).bases }
    ensures room { length result.1.now ≤ 5 }
{
    match letter {
        SCREEN => (3, &[DECIMAL; 3]),
        PANE => (5, &[DECIMAL; 5]),
        OPEN => (0, &[]),
        PUT => (3, &PANE_AND_ADDRESS),
        START => (2, &PANE_AND_ADDRESS),
        RUN => (2, &[DECIMAL; 2]),
        LOOK => (1, &[DECIMAL]),
        PIXEL => (3, &[DECIMAL; 3]),
        PEEK => (2, &PANE_AND_ADDRESS),
        CLEAR => (1, &[DECIMAL]),
        JUDGE => (2, &PANE_AND_ADDRESS),
        SWITCH => (2, &[DECIMAL; 2]),
        _ => (0, &[]),
    }
}

// What a line says, by its letter and its numbers, of which so many as the letter asks for are read.
#[tactic(auto, unfolding(crate::specs::Lines::form_in))]
fn line_of(letter: u8, numbers: [u32; 5], line: &[u8], buffer: &mut [u8]) -> Option<Line>
    requires line_len_bound { length line.now ≤ most_script }
    requires most_bytes_in_bounds { most_bytes ≤ length buffer.old }
    ensures { line_said result buffer.new
        ≡ saying (form_of letter) (take (length (form_of letter).bases) numbers) (fields_of line.now) }
{
    let [first, second, third, fourth, fifth] = numbers;
    Some(match letter {
        SCREEN => Line::Screen(Geometry {
            width: first,
            height: second,
            depth: third,
        }),
        PANE => Line::Pane {
            left: first,
            top: second,
            width: third,
            height: fourth,
            len: fifth,
        },
        OPEN => Line::Open,
        PUT => Line::Ask(letter, first, Call::Put(second, bytes(line, 3, buffer)?)),
        START => Line::Ask(letter, first, Call::Start(second)),
        RUN => Line::Ask(letter, first, Call::Run(second)),
        LOOK => Line::Ask(letter, first, Call::Look),
        PIXEL => Line::Ask(letter, first, Call::Pixel(second, third)),
        PEEK => Line::Ask(letter, first, Call::Peek(second)),
        CLEAR => Line::Ask(letter, first, Call::Clear),
        JUDGE => Line::Ask(letter, first, Call::Judge(second)),
        SWITCH => Line::Ask(letter, first, Call::Switch(second)),
        _ => return None,
    })
}

// What a line says in a language. Its first field is the letter alone.
#[tactic(auto, unfolding(crate::specs::Lines::line_of, crate::specs::Lines::line_by_letter, crate::specs::Lines::line_by))]
pub fn parse(language: Language, line: &[u8], buffer: &mut [u8]) -> Option<Line>
    requires line_len_bound { length line.now ≤ most_script }
    requires most_bytes_in_bounds { most_bytes ≤ length buffer.old }
    ensures { line_said result buffer.new ≡ line_of language line.now }
{
    let [letter] = field(line, 0) else {
        return None;
    };
    if !has(language, *letter) {
        return None;
    }
    let (fields, bases) = reading_of(*letter);
    let values = numbers(line, fields, bases)?;
    line_of(*letter, values, line, buffer)
}
