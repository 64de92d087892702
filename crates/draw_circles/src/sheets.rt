// A circle's points in one buffer. Which of them lie in the limits is known by column and by row, and each that does
// is stamped.
ghost use Rattle.std.specs.Prelude.{◌≡◌, true, ◌&&◌, [], ◌<◌, length};
ghost use Rattle.model.specs.Lines.{once};
ghost use Rattle.model.specs.Circles.{mirrored, reflections};
ghost use Rattle.canvas.specs.Canvas.{count_end};
ghost use Rattle.draw_circles.specs.Sheets.{SheetReady, InLimits, Room, Dabbed, dot_if, dots_on};

use crate::sides::{Side, sides_of};
use canvas::Offset;
use model::{Clip, Point, Surface};

// What a circle is drawn on: a surface in a buffer, the limits there, the circle's centre, and whether all of it lies
// in the limits.
#[derive(Clone, Copy)]
pub struct Sheet {
    pub surface: Surface,
    pub clip: Clip,
    pub centre: Point,
    pub inside: bool,
}

// The foreground in a column and a row, if both are to be drawn: hits, or one more.
fn dab(buffer: &mut [u8], stamps: &[u8], s: Sheet, x: Side, y: Side, hits: usize) -> usize
    requires { SheetReady s (length buffer.old) (length stamps.now)
        × ((x.on && y.on) ≡ true → InLimits s x.at y.at) × (hits < count_end) }
    ensures { Dabbed s stamps.now (dot_if (x.on && y.on) x.at y.at) 1
        buffer.old buffer.new hits result }
{
    if !(x.on & y.on) {
        return hits;
    }
    let u = s.surface;
    let row = u.base + 2 * (u.words * (u.top + (y.at - 65536)));
    let o = (u.left + (x.at - 65536)) * u.bits;
    stamps::stamp(buffer, stamps, row, o, 1);
    hits + 1
}

// (x,y) from the centre, mirrored in the axes, each place once. Compiled into the walk at both calls, for speed.
#[inline(always)]
fn mirrored(buffer: &mut [u8], stamps: &[u8], s: Sheet, o: Offset, hits: usize) -> usize
    requires { SheetReady s (length buffer.old) (length stamps.now) × Room s o hits 4 }
    ensures { Dabbed s stamps.now (dots_on s (once [] (mirrored o.x o.y))) 4
        buffer.old buffer.new hits result }
{
    let centre = s.centre;
    let clip = s.clip;
    let columns = sides_of(centre.x, o.x, clip.xmin, clip.xmax, s.inside);
    let rows = sides_of(centre.y, o.y, clip.ymin, clip.ymax, s.inside);
    let one = dab(buffer, stamps, s, columns.after, rows.after, hits);
    let two = dab(buffer, stamps, s, columns.before, rows.after, one);
    let three = dab(buffer, stamps, s, columns.after, rows.before, two);
    dab(buffer, stamps, s, columns.before, rows.before, three)
}

// All eight reflections of (x,y) from the centre, each place once.
pub fn reflections(buffer: &mut [u8], stamps: &[u8], s: Sheet, o: Offset, hits: usize) -> usize
    requires { SheetReady s (length buffer.old) (length stamps.now) × Room s o hits 8 }
    ensures { Dabbed s stamps.now (dots_on s (once [] (reflections o.x o.y))) 8
        buffer.old buffer.new hits result }
{
    let n = mirrored(buffer, stamps, s, o, hits);
    if o.x == o.y {
        return n;
    }
    let q = Offset { x: o.y, y: o.x };
    mirrored(buffer, stamps, s, q, n)
}
