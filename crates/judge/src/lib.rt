// A list judged before it runs (02, A.2): "judging a list judges its commands, and a CALL judges a list with
// fewer levels left". The list judge goes over commands; the command judge says what follows a command, and for
// CALL asks the list judge. Only what faults depend on is carried along, and no pixel is worked out.
#![tactic(auto)]

ghost use Rattle.std.specs.Prelude.{◌≡◌, length, IfOk};
ghost use Rattle.model.specs.Numbers.{fault_met};
ghost use Rattle.model.specs.Replies.{verdict};
ghost use Rattle.model.specs.Commands.{Addressed};
ghost use Rattle.model.specs.Record.{fresh};
ghost use Rattle.model.specs.Faults.{context_of};
ghost use Rattle.model.specs.Calls.{started};
ghost use Rattle.model.specs.Judge.{judged_fault, verdict_of};
ghost use Rattle.faults.specs.Checking.{Checkable};
ghost use Rattle.judge.specs.Roles.{role_of};
ghost use Rattle.judge.specs.Levels.{Judgeable, ListJudged, CommandJudged};

use bitmaps::PANE_ADDRESS;
use faults::fault_of;
use model::{Bitmap, Command, Context, Decoded, Fault, Font, FoundFault, Frame};
use state_commands::settings::font_of;

// "It walks at most 4,096 commands."
const MOST_WALKED: u32 = 4096;

// What a command that the judge follows is to it: CALL, RETURN, DEF_BITMAP of the pane, DEF_CHAR_SET, or none of
// these.
#[derive(Clone, Copy)]
pub enum Role {
    Calls(u32),
    Returns,
    SetsBitmap { xmax: u16, ymax: u16, bits: u16 },
    SetsFont(Font),
    Plain,
}

// How a list without a fault stops: at an end word, or at a RETURN with what it leaves, both with the commands that
// are left to walk.
#[derive(Clone, Copy)]
pub enum Stop {
    Ended(u32),
    Returned(Context, u32),
}

// What follows a command in its list: more commands, from an address on, with the commands that are left to
// walk; or the list stops.
#[derive(Clone, Copy)]
pub enum Next {
    On(Context, u32, u32),
    Stops(Stop),
}

// ---- What a command is to the judge

// Any command: "LINK, or a DEF_BITMAP whose address isn't 200000 hex, gets 31".
#[tactic(auto, unfolding(crate::specs::Roles::role_of))]
fn role_of(c: Command) -> Result<Role, Fault>
    ensures { result ≡ role_of c }
{
    match c {
        Command::Link { .. } => Err(Fault::Barred),
        Command::DefCharSet { base, bytes } => Ok(Role::SetsFont(font_of(bytes, base))),
        Command::Call { address } => Ok(Role::Calls(address)),
        Command::Return => Ok(Role::Returns),
        Command::DefBitmap {
            address,
            xmax,
            ymax,
            bits,
        } => {
            if address != PANE_ADDRESS {
                return Err(Fault::Barred);
            }
            Ok(Role::SetsBitmap { xmax, ymax, bits })
        }
        _ => Ok(Role::Plain),
    }
}

// A command by itself: its fault, or what it is to the judge.
#[tactic(auto, using(crate::proofs::WalkLaws::examined, model::proofs::NumberLaws::fault_some))]
fn examine(store: &[u8], f: Frame, x: Context, c: Command) -> Result<Role, Fault>
    requires { Checkable f.geometry f.row x (length store.now) × Addressed c }
    ensures fault { fault_met result ≡ judged_fault f.geometry f.row x store.now c }
    ensures role { IfOk result (λ role. role_of c ≡ Ok role) }
{
    let role = role_of(c)?;
    fault_of(store, f, x, c)?;
    Ok(role)
}

// ---- The two judges

// A command of a list: what follows it there, so many commands being left to walk after it.
#[cycle(judge_command_judge_list)]
fn judge_command(
    store: &[u8],
    f: Frame,
    x: Context,
    at: u32,
    left: u32,
    c: Command,
    next: u32,
) -> Result<Next, FoundFault>
    requires { Judgeable f.geometry f.row x (length store.now) × Addressed c }
    ensures { CommandJudged f.geometry f.row store.now x at left c next result }
{
    match examine(store, f, x, c) {
        Err(fault) => Err(FoundFault { fault, address: at }),
        Ok(Role::Calls(address)) => {
            let called = Context {
                kept: x.kept + 1,
                ..x
            };
            match judge_list(store, f, called, address, left)? {
                Stop::Ended(rest) => Ok(Next::Stops(Stop::Ended(rest))),
                Stop::Returned(y, rest) => Ok(Next::On(y, next, rest)),
            }
        }
        Ok(Role::Returns) => {
            let back = Context {
                kept: x.kept - 1,
                ..x
            };
            Ok(Next::Stops(Stop::Returned(back, left)))
        }
        Ok(Role::SetsBitmap { xmax, ymax, bits }) => {
            let bitmap = Bitmap::Pane { xmax, ymax, bits };
            Ok(Next::On(Context { bitmap, ..x }, next, left))
        }
        Ok(Role::SetsFont(font)) => Ok(Next::On(Context { font, ..x }, next, left)),
        Ok(Role::Plain) => Ok(Next::On(x, next, left)),
    }
}

// A list from an address on: how it stops, at most so many commands being walked. "Anything but an end word after
// 4,096 commands gets 32." The walk goes where the list says, and ends since fewer commands are left.
#[cycle(judge_command_judge_list)]
fn judge_list(
    store: &[u8],
    f: Frame,
    begun: Context,
    from: u32,
    most: u32,
) -> Result<Stop, FoundFault>
    requires { Judgeable f.geometry f.row begun (length store.now) }
    ensures { ListJudged f.geometry f.row store.now begun from most result }
{
    let mut x = begun;
    let mut at = from;
    let mut left = most;
    loop {
        match decoder::decode(store, at) {
            Decoded::End => return Ok(Stop::Ended(left)),
            _ if left == 0 => {
                return Err(FoundFault {
                    fault: Fault::Long,
                    address: at,
                });
            }
            Decoded::Fault(fault) => return Err(FoundFault { fault, address: at }),
            Decoded::Do(c, next) => match judge_command(store, f, x, at, left - 1, c, next)? {
                Next::On(y, to, rest) => (x, at, left) = (y, to, rest),
                Next::Stops(stop) => return Ok(stop),
            },
        }
    }
}

// A list judged from an address on, as from a cleared pane: the number of commands walked, or else the first fault.
pub fn judge(store: &[u8], f: Frame, address: u32) -> Result<u32, FoundFault>
    requires { Checkable f.geometry f.row (context_of fresh) (length store.now) }
    ensures { verdict result ≡ verdict_of f.geometry f.row store.now (started fresh address) }
{
    let x = Context {
        bitmap: Bitmap::Absent,
        font: Font::Absent,
        kept: 0,
    };
    match judge_list(store, f, x, address, MOST_WALKED)? {
        Stop::Ended(left) => Ok(MOST_WALKED - left),
        // no return address is kept at this level: a RETURN has fault 27
        Stop::Returned(_, _) => unreachable!(),
    }
}
