// What a script has said so far: the session that its lines leave, and what each line comes to.
// specs/SessionState.antt has what a line does.
#![tactic(auto)]

ghost use Rattle.std.specs.Prelude.{◌≡◌, min, length};
ghost use Rattle.io.specs.Counts.{IsPrefixLen};
ghost use Rattle.script_session.specs.SessionState.{new_session, line_step, with_console};
ghost use Rattle.script_session.specs.declared.LineAnswer.TheVariants as answer;

use model::{Console, Geometry, Refusal, Reply, Row};

// The largest screen and the largest stores, in bytes.
pub const MOST_SCREEN: usize = 32_768;

pub const MOST_STORES: usize = 16_384;

// The most panes.
pub const MOST_PANES: usize = 8;

// The console record as far as the lines have filled it, whether an `s` was taken, whether an `o` was
// accepted, and the bytes that the screen's rows and the stores take.
#[derive(Clone, Copy)]
pub struct Session {
    pub console: Console,
    pub sized: bool,
    pub opened: bool,
    pub screen: u32,
    pub stores: u32,
}

// What a line comes to: a ?, nothing to print, or a letter's reply. Each prints something else, so `Option` in `Result`
// would be no plainer.
#[derive(Clone, Copy)]
pub enum LineAnswer {
    Malformed,
    Taken,
    Replied(u8, Result<Reply, Refusal>),
}

// The session after a line, and what the line comes to.
#[derive(Clone, Copy)]
pub struct LineStep {
    pub session: Session,
    pub answer: LineAnswer,
}

// The number itself, and no more than the buffer has bytes.
pub fn count_within(n: usize, buffer: &[u8]) -> usize
    ensures within { IsPrefixLen result buffer.now }
    ensures least { result ≡ min n (length buffer.now) }
{
    n.min(buffer.len())
}

// A line that prints ? and does nothing.
pub fn malformed(session: Session) -> LineStep
    ensures { result ≡ line_step session answer.Malformed }
{
    LineStep {
        session,
        answer: LineAnswer::Malformed,
    }
}

// A line that is taken and prints nothing.
pub fn taken(session: Session) -> LineStep
    ensures { result ≡ line_step session answer.Taken }
{
    LineStep {
        session,
        answer: LineAnswer::Taken,
    }
}

// A call that was made: the record after it, and its reply under the line's letter.
pub fn replied(session: Session, letter: u8, answered: call_common::Answered) -> LineStep
    ensures { result
        ≡ line_step (with_console session answered.console) (answer.Replied letter answered.reply) }
{
    let console = answered.console;
    let reply = answered.reply;
    LineStep {
        session: Session { console, ..session },
        answer: LineAnswer::Replied(letter, reply),
    }
}

// Nothing was said: a console record without rows.
impl Default for Session {
    ghost is_default = { λ session. session ≡ new_session };

    fn default() -> Session {
        let row = Row {
            left: 0,
            top: 0,
            width: 0,
            height: 0,
            start: 0,
            len: 0,
        };
        Session {
            console: Console {
                geometry: Geometry {
                    width: 0,
                    height: 0,
                    depth: 0,
                },
                count: 0,
                rows: [row; MOST_PANES],
                panes: [call_common::fresh(); MOST_PANES],
            },
            sized: false,
            opened: false,
            screen: 0,
            stores: 0,
        }
    }
}
