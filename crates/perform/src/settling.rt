// The commands that draw nothing: the record that each leaves.
ghost use Rattle.perform.specs.Performing.{Settling, Settles};

use model::{Command, Pane, Row};
use state_commands::{control, position, settings};

// The record that a command leaves which draws nothing and is free of faults, with the address after it, of a pane
// with this row.
pub fn settle(row: Row, p: Pane, c: Command, next: u32) -> Pane
    requires { Settling row p c }
    ensures { Settles row p next c result }
{
    match c {
        Command::Nop => control::nop(p, next),
        Command::Link { address } => control::link(p, address),
        Command::Call { address } => control::call(p, address, next),
        Command::Return => control::return_from_call(p),
        Command::AbsMov { x, y } => position::abs_mov(p, x, y, next),
        Command::RelMov { dx, dy } => position::rel_mov(p, dx, dy, next),
        Command::DefBitmap {
            address,
            xmax,
            ymax,
            bits,
        } => settings::def_bitmap(row, p, address, xmax, ymax, bits, next),
        Command::DefClipRect {
            xmin,
            ymin,
            xmax,
            ymax,
        } => settings::def_clip_rect(row, p, xmin, ymin, xmax, ymax, next),
        Command::DefColors { fore, back } => settings::def_colors(p, fore, back, next),
        Command::DefLogicalOp { mask, code } => settings::def_logical_op(p, mask, code, next),
        Command::DefTexture {
            pattern,
            transparent,
        } => settings::def_texture(p, pattern, transparent, next),
        Command::DefSpace { spacing } => settings::def_space(p, spacing, next),
        Command::DefCharOrient { orientation } => settings::def_char_orient(p, orientation, next),
        Command::DefCharSet { base, bytes } => settings::def_char_set(p, base, bytes, next),
        Command::EnterPick => settings::enter_pick(p, next),
        Command::ExitPick => settings::exit_pick(p, next),
        _ => p,
    }
}
