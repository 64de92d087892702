// POINT and LINE: what is drawn, and where the position then is.
ghost use Rattle.std.specs.Prelude.{length};
ghost use Rattle.model.specs.Coordinates.{coord, moved};
ghost use Rattle.model.specs.Lines.{line, point_at};
ghost use Rattle.canvas.specs.Canvas.{canvas, Drew};
ghost use Rattle.canvas.specs.Targets.{Ready};

use crate::segments::{draw_segment, whole_line};
use canvas::{Drawn, Offset, Target, course_of};
use model::Point;

// POINT: the position moves by (dx,dy), and one pixel is drawn there.
#[tactic(auto, using(crate::proofs::SegmentLaws::point_at_drawn), unfolding(model::specs::Lines::point_at))]
pub fn point(screen: &mut [u8], store: &mut [u8], t: Target, from: Point, dx: u16, dy: u16) -> Drawn
    requires { Ready t (length screen.old) (length store.old) }
    ensures { Drew t (point_at t.pen (moved from (coord dx) (coord dy)))
        (canvas screen.old store.old 0) result screen.new store.new }
{
    let position = coordinates::move_by(from, dx, dy);
    let course = course_of(position, 0, 0);
    let source = canvas::pattern_source(t.pen, 0);
    let o = Offset { x: 0, y: 0 };
    let hits = canvas::draw_dot(screen, store, t, course, o, source, 0);
    Drawn {
        position,
        trap: false,
        hits,
    }
}

// LINE by (dx,dy): the position ends at the far end.
#[tactic(auto, unfolding(model::specs::Lines::line))]
pub fn line(screen: &mut [u8], store: &mut [u8], t: Target, from: Point, dx: u16, dy: u16) -> Drawn
    requires { Ready t (length screen.old) (length store.old) }
    ensures { Drew t (line t.pen from (coord dx) (coord dy))
        (canvas screen.old store.old 0) result screen.new store.new }
{
    let stamps = traces::stamps_of(t);
    let hits = draw_segment(screen, store, &stamps, t, from, whole_line(dx, dy), 0);
    let position = coordinates::move_by(from, dx, dy);
    Drawn {
        position,
        trap: false,
        hits,
    }
}
