// The lines before the calls obeyed: `s`, the screen; `p`, a pane; `o`, set-up.
#![tactic(auto)]

ghost use Rattle.std.specs.Prelude.{◌≡◌, false, List, ℕ};
ghost use Rattle.model.specs.Setup.{screen_bytes};
ghost use Rattle.model.specs.Replies.{response};
ghost use Rattle.script_lines.specs.Lines.{sizing, adding, opening, line_said, letter_open};
ghost use Rattle.script_session.specs.SessionState.{session_state, reaction_of, line_step, with_console};
ghost use Rattle.script_session.specs.SessionState.{after_set_up, after_line};
ghost use Rattle.script_session.specs.declared.LineAnswer.TheVariants as answer;
ghost use Rattle.script_setup.specs.Sizes.{SizeAs};

use model::{Geometry, Row};
use script_lines::{Line, OPEN};
use script_session::{
    LineStep, MOST_PANES, MOST_SCREEN, MOST_STORES, Session, count_within, malformed, replied,
    taken,
};

// The bytes that the screen's rows take, or a number above the limit if they pass it.
fn screen_bytes(g: Geometry) -> usize
    ensures { SizeAs (screen_bytes g) result }
{
    let bits = (g.width as usize) * (g.depth as usize);
    let words = bits.div_ceil(16).min(MOST_SCREEN + 1);
    2 * ((g.height as usize) * words)
}

// The line `s` with a geometry: taken if its rows keep to the limit, unless there is one already.
#[tactic(auto, unfolding(script_session::specs::SessionState::after_line))]
fn take_screen(session: Session, geometry: Geometry) -> LineStep
    requires { session.opened ≡ false }
    ensures { (screen stores : List ℕ) → reaction_of result screen stores
        ≡ after_line (sizing geometry) (session_state session screen stores) }
{
    let bytes = screen_bytes(geometry);
    if session.sized || bytes > MOST_SCREEN {
        return malformed(session);
    }
    let mut console = session.console;
    console.geometry = geometry;
    taken(Session {
        console,
        sized: true,
        screen: bytes as u32,
        ..session
    })
}

// The line `p`: taken as the table's next row if its store keeps to the limit. Its store begins where the one
// before ends.
#[tactic(auto, unfolding(script_session::specs::SessionState::after_line))]
fn take_pane(session: Session, left: u32, top: u32, width: u32, height: u32, len: u32) -> LineStep
    requires { session.opened ≡ false }
    ensures { (screen stores : List ℕ) → reaction_of result screen stores
        ≡ after_line (adding left top width height len) (session_state session screen stores) }
{
    let k = session.console.count as usize;
    let total = (session.stores as usize) + (len as usize);
    if k >= MOST_PANES || total > MOST_STORES {
        return malformed(session);
    }
    let mut console = session.console;
    console.rows[k] = Row {
        left,
        top,
        width,
        height,
        start: session.stores,
        len,
    };
    console.count += 1;
    taken(Session {
        console,
        stores: total as u32,
        ..session
    })
}

// The session with set-up's answer: opened if it was accepted.
fn after_set_up(session: Session, answered: call_common::Answered) -> LineStep
    ensures { result ≡ line_step (with_console (after_set_up session (response answered.reply)) answered.console)
        (answer.Replied letter_open answered.reply) }
{
    match answered.reply {
        Ok(_) => replied(
            Session {
                opened: true,
                ..session
            },
            OPEN,
            answered,
        ),
        Err(_) => replied(session, OPEN, answered),
    }
}

// The line `o`: set-up of what the lines before it said.
#[tactic(auto, unfolding(script_session::specs::SessionState::after_line))]
fn open(screen: &[u8], stores: &[u8], session: Session) -> LineStep
    requires { session.opened ≡ false }
    ensures { reaction_of result screen.now stores.now
        ≡ after_line opening (session_state session screen.now stores.now) }
{
    if !session.sized {
        return malformed(session);
    }
    let n = count_within(session.screen as usize, screen);
    let m = count_within(session.stores as usize, stores);
    after_set_up(
        session,
        call_setup::set_up(&screen[..n], &stores[..m], session.console),
    )
}

// A line before an accepted `o`: a call prints ?.
#[tactic(auto, unfolding(script_session::specs::SessionState::after_line))]
pub fn obey(said: Option<Line>, screen: &[u8], stores: &[u8], session: Session) -> LineStep
    requires { session.opened ≡ false }
    ensures { (buffer : List ℕ) → reaction_of result screen.now stores.now
        ≡ after_line (line_said said buffer) (session_state session screen.now stores.now) }
{
    let Some(said) = said else {
        return malformed(session);
    };
    match said {
        Line::Screen(geometry) => take_screen(session, geometry),
        Line::Pane {
            left,
            top,
            width,
            height,
            len,
        } => take_pane(session, left, top, width, height, len),
        Line::Open => open(screen, stores, session),
        Line::Ask(..) => malformed(session),
    }
}
