// The script program on slices: lines in, replies out, in the language of `panes` or of `calls`. Each line is
// taken apart into what it says, obeyed, and its reply written: `answered` (specs/Scripts.antt) is the
// definition of the whole program.
#![tactic(auto)]

ghost use Rattle.std.specs.Prelude.{◌≡◌, ◌≤◌, length, take, replicate};
ghost use Rattle.io.specs.Counts.{IsPrefixLen};
ghost use Rattle.script_fields.specs.Fields.{lines_of, most_script, most_bytes};
ghost use Rattle.script_lines.specs.Lines.{line_of, line_said};
ghost use Rattle.script_session.specs.SessionState.{session_state, reaction_of, outcome_of, after_line, new_session};
ghost use Rattle.script_session.specs.SessionState.{most_screen, most_stores};
ghost use Rattle.script_numerals.specs.Numerals.{Wrote};
ghost use Rattle.script.specs.Scripts.{outcome_text, answered, printed, room};

pub use script_fields::MOST_SCRIPT;
use script_fields::{LINE_FEED, MOST_BYTES, without_line_feed};
use script_lines::Language;
use script_replies::MOST_REPLY;
use script_session::{LineAnswer, LineStep, MOST_SCREEN, MOST_STORES, Session};

// Obeys the lines of a script and writes the replies to the start of a buffer. Answers how many bytes they
// take. What the buffer has no room for is left out: nothing, where it has `room`.
#[tactic(auto, using(crate::proofs::RoomLaws::answered_whole), unfolding(crate::specs::Scripts::answered))]
pub fn answer(language: Language, script: &[u8], out: &mut [u8]) -> usize
    ensures within { IsPrefixLen result out.new }
    ensures written { take result out.new
        ≡ take (length out.old) (answered language script.now) }
    ensures whole { room ≤ length out.old →
        take result out.new ≡ answered language script.now }
{
    if script.len() > MOST_SCRIPT {
        return script_replies::malformed(out, 0);
    }
    let mut screen = screen_room();
    let mut stores = stores_room();
    let mut scratch = bytes_room();
    lines(
        language,
        script,
        &mut screen,
        &mut stores,
        &mut scratch,
        out,
    )
}

// Room for all that a script can print: `room` bytes, as the array's type says.
pub fn room() -> [u8; MOST_REPLY * MOST_SCRIPT] {
    [0; MOST_REPLY * MOST_SCRIPT]
}

// The largest screen, zeroed.
fn screen_room() -> [u8; MOST_SCREEN]
    ensures { result ≡ replicate most_screen 0 }
{
    [0; MOST_SCREEN]
}

// The largest stores, zeroed.
fn stores_room() -> [u8; MOST_STORES]
    ensures { result ≡ replicate most_stores 0 }
{
    [0; MOST_STORES]
}

// Room for the bytes of one put.
fn bytes_room() -> [u8; MOST_BYTES]
    ensures { most_bytes ≡ length result }
{
    [0; MOST_BYTES]
}

// Obeys line after line, and answers how many bytes of replies there are.
fn lines(
    language: Language,
    script: &[u8],
    screen: &mut [u8],
    stores: &mut [u8],
    scratch: &mut [u8],
    out: &mut [u8],
) -> usize
    requires script_len_bound { length script.now ≤ most_script }
    requires most_bytes_in_bounds { most_bytes ≤ length scratch.old }
    ensures within { IsPrefixLen result out.new }
    ensures written { take result out.new
        ≡ take (length out.old)
        (printed language (lines_of script.now)
        (session_state new_session screen.old stores.old)) }
{
    let mut session = Session::default();
    let mut written = 0;
    for line in script.split_inclusive(|b| *b == LINE_FEED) {
        let step = one_line(
            language,
            without_line_feed(line),
            screen,
            stores,
            scratch,
            session,
        );
        written = print(out, written, step.answer);
        session = step.session;
    }
    written
}

// Takes a line apart and obeys it.
#[tactic(auto, unfolding(script_session::specs::SessionState::after_line))]
fn one_line(
    language: Language,
    line: &[u8],
    screen: &mut [u8],
    stores: &mut [u8],
    scratch: &mut [u8],
    session: Session,
) -> LineStep
    requires line_len_bound { length line.now ≤ most_script }
    requires most_bytes_in_bounds { most_bytes ≤ length scratch.old }
    ensures { reaction_of result screen.new stores.new
        ≡ after_line (line_of language line.now)
        (session_state session screen.old stores.old) }
{
    let said = script_lines::parse(language, line, scratch);
    obey(said, screen, stores, scratch, session)
}

// Obeys what a line says. Before an accepted `o` only `s`, `p` and `o` are taken, after it only the calls.
fn obey(
    said: Option<script_lines::Line>,
    screen: &mut [u8],
    stores: &mut [u8],
    scratch: &[u8],
    session: Session,
) -> LineStep
    ensures { reaction_of result screen.new stores.new
        ≡ after_line (line_said said scratch.now)
        (session_state session screen.old stores.old) }
{
    if session.opened {
        return script_calls::obey(said, screen, stores, scratch, session);
    }
    script_setup::obey(said, screen, stores, session)
}

// What a line comes to, printed.
fn print(out: &mut [u8], at: usize, answer: LineAnswer) -> usize
    requires { at ≤ length out.old }
    ensures { Wrote out.old at (outcome_text (outcome_of answer)) out.new result }
{
    match answer {
        LineAnswer::Malformed => script_replies::malformed(out, at),
        LineAnswer::Taken => at,
        LineAnswer::Replied(letter, reply) => script_replies::reply(out, at, letter, reply),
    }
}
