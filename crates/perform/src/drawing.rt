// The drawing commands, on the pane's target: where and how the record says that commands draw.
ghost use Rattle.std.specs.Prelude.{length};
ghost use Rattle.perform.specs.Performing.{Allowed, Carries};

use bitmaps::{area_of, source_of};
use canvas::{Drawn, target_of};
use draw_text::Characters;
use model::{Command, Frame, Pane};

// What a drawing command that is free of faults draws, drawn.
pub fn draw(screen: &mut [u8], store: &mut [u8], f: Frame, p: Pane, c: Command) -> Drawn
    requires { Allowed f.geometry f.row p (length screen.old) store.old c }
    ensures { Carries f.geometry f.row p c screen.old store.old
        result screen.new store.new }
{
    let t = target_of(f, p);
    let from = p.position;
    let text = p.text;
    match c {
        Command::Point { dx, dy } => draw_lines::point(screen, store, t, from, dx, dy),
        Command::Line { dx, dy } => draw_lines::line(screen, store, t, from, dx, dy),
        Command::Rect { dx, dy } => draw_outlines::rect(screen, store, t, from, dx, dy),
        Command::Circle { radius } => draw_circles::circle(screen, store, t, from, radius),
        Command::Polyline { array, count } => {
            draw_arrays::polyline(screen, store, t, from, array as usize, count as usize)
        }
        Command::ScanLines { array, count } => {
            draw_arrays::scan_lines(screen, store, t, from, array as usize, count as usize)
        }
        Command::BitBlt { block } => {
            draw_copies::bit_blt(screen, store, t, from, text.spacing, block)
        }
        Command::BitBltM {
            address,
            xmax,
            ymax,
            block,
        } => {
            let active = p.bitmap;
            let source = area_of(f, source_of(f, active, address, xmax, ymax));
            draw_copies::bit_blt_m(screen, store, t, source, from, text.spacing, block)
        }
        Command::Char {
            string,
            count,
            transparent,
        } => {
            let characters = Characters {
                string,
                count,
                transparent,
            };
            draw_text::draw_string(screen, store, t, text, from, characters)
        }
        _ => Drawn {
            position: from,
            trap: false,
            hits: 0,
        },
    }
}
