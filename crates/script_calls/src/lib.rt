// The lines of the calls obeyed: w, g, r, l and x, and k, c, j and t of the language of `calls`. Each call is
// lent the screen's rows and the stores, and nothing more.
#![tactic(auto)]

ghost use Rattle.std.specs.Prelude.{◌≡◌, true};
ghost use Rattle.model.specs.Calls.{exec, on};
ghost use Rattle.call_common.specs.Answers.{state, answer};
ghost use Rattle.script_lines.specs.Lines.{call_said, line_said};
ghost use Rattle.script_session.specs.SessionState.{session_state, reaction_of, after_line};

use call_common::Answered;
use model::Console;
use script_lines::{Call, Line};
use script_session::{LineStep, Session, count_within, malformed, replied};

// Makes a call on a pane. The bytes of a put are the buffer's first.
fn make_call(
    screen: &mut [u8],
    stores: &mut [u8],
    buffer: &[u8],
    console: Console,
    pane: u32,
    call: Call,
) -> Answered
    ensures { answer result screen.new stores.new
        ≡ exec (state console screen.old stores.old)
        (on pane (call_said call buffer.now)) }
{
    match call {
        Call::Put(address, count) => {
            let n = count_within(count, buffer);
            console::put(screen, stores, console, pane, address, &buffer[..n])
        }
        Call::Start(address) => console::start(screen, stores, console, pane, address),
        Call::Run(budget) => console::run(screen, stores, console, pane, budget),
        Call::Look => console::look(screen, stores, console, pane),
        Call::Pixel(x, y) => console::pixel(screen, stores, console, pane, x, y),
        Call::Peek(address) => console::peek(screen, stores, console, pane, address),
        Call::Clear => console::clear(screen, stores, console, pane),
        Call::Judge(address) => console::judge(screen, stores, console, pane, address),
        Call::Switch(value) => console::switch(screen, stores, console, pane, value),
    }
}

// A line after an accepted `o`: a call is lent the bytes in use, and any other line prints ?.
#[tactic(auto, unfolding(script_session::specs::SessionState::after_line))]
pub fn obey(
    said: Option<Line>,
    screen: &mut [u8],
    stores: &mut [u8],
    buffer: &[u8],
    session: Session,
) -> LineStep
    requires { session.opened ≡ true }
    ensures { reaction_of result screen.new stores.new
        ≡ after_line (line_said said buffer.now)
        (session_state session screen.old stores.old) }
{
    let Some(Line::Ask(letter, pane, call)) = said else {
        return malformed(session);
    };
    let n = count_within(session.screen as usize, screen);
    let m = count_within(session.stores as usize, stores);
    let console = session.console;
    let answered = make_call(
        &mut screen[..n],
        &mut stores[..m],
        buffer,
        console,
        pane,
        call,
    );
    replied(session, letter, answered)
}
