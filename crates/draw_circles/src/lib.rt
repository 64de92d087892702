// CIRCLE: a walk along an eighth of the circle, each of its points with its reflections.
#![tactic(auto)]

mod sheets; // sheets.rt: points in one buffer
mod sides; // sides.rt: the limits to either side of the centre
mod tables; // tables.rt: the stamps that a circle is drawn with

ghost use Rattle.std.specs.Prelude.{suc, ◌+◌, ◌*◌, ◌≤◌, ◌<◌, nat_abs, length};
ghost use Rattle.model.specs.Coordinates.{coord};
ghost use Rattle.model.specs.Circles.{circle};
ghost use Rattle.canvas.specs.Canvas.{canvas, Drew, Painted};
ghost use Rattle.canvas.specs.Targets.{Ready};
ghost use Rattle.draw_circles.specs.Sheets.{SheetReady, Round, Dabbed, circle_on};
ghost use Rattle.draw_circles.specs.Eighths.{Further};
ghost use Rattle.draw_circles.specs.Tables.{StampsFor};

use canvas::{Course, Drawn, Heading, Offset, Target};
use model::{Point, Source};
use sheets::{Sheet, reflections};
use sides::{Overlap, overlap_of};
use tables::stamps_for;

// Where the walk along the eighth has come to: the point (i,j), and how far j × (j+1) + i² is above r².
#[derive(Clone, Copy)]
struct EighthPoint {
    i: usize,
    j: usize,
    excess: usize,
}

// The next point of the walk: i grows by one, so i² by 2i + 1; where that leaves j × (j-1) + i² no longer
// below r², j falls by one, and j × (j+1) by 2j. Nothing is multiplied.
fn next_point(p: EighthPoint) -> EighthPoint
    requires { (p.i ≤ p.j) × (p.j ≤ 32768) × (p.excess < p.j + p.j) }
    ensures { Further p result }
{
    let i = p.i + 1;
    let j = p.j;
    let excess = p.excess + p.i + i;
    if excess < j + j {
        return EighthPoint { i, j, excess };
    }
    EighthPoint {
        i,
        j: j - 1,
        excess: excess - j - j,
    }
}

// The circle of radius r on a sheet: how many of its points are visible.
fn ring(buffer: &mut [u8], stamps: &[u8], s: Sheet, r: usize) -> usize
    requires { SheetReady s (length buffer.old) (length stamps.now) × Round s r }
    ensures { Dabbed s stamps.now (circle_on s r) (8 * suc r)
        buffer.old buffer.new 0 result }
{
    let mut hits = 0;
    let mut p = EighthPoint {
        i: 0,
        j: r,
        excess: r,
    };
    // A range of columns would say no more: the walk ends where i passes j, and j falls on the way.
    while p.i <= p.j {
        let o = Offset { x: p.i, y: p.j };
        hits = reflections(buffer, stamps, s, o, hits);
        p = next_point(p);
    }
    hits
}

// The circle of radius 0: the centre alone.
fn draw_centre(screen: &mut [u8], store: &mut [u8], t: Target, centre: Point) -> usize
    requires { Ready t (length screen.old) (length store.old) }
    ensures { Painted t (circle t.pen centre 0).dots (canvas screen.old store.old 0)
        (canvas screen.new store.new result) }
{
    let pen = t.pen;
    let source = Source::Colour(pen.fore);
    let heading = Heading {
        left: false,
        up: false,
    };
    let course = Course {
        from: centre,
        heading,
    };
    let o = Offset { x: 0, y: 0 };
    canvas::draw_dot(screen, store, t, course, o, source, 0)
}

// The circle of radius r about the centre, by the stamps of the target: how many of its points are visible. Where its
// columns or its rows miss the limits, none is.
pub fn draw_circle(
    screen: &mut [u8],
    store: &mut [u8],
    stamps: &[u8],
    t: Target,
    centre: Point,
    r: usize,
) -> usize
    requires { Ready t (length screen.old) (length store.old) × (r ≤ 32768) × StampsFor t stamps.now }
    ensures { Painted t (circle t.pen centre r).dots (canvas screen.old store.old 0)
        (canvas screen.new store.new result) }
{
    if r == 0 {
        return draw_centre(screen, store, t, centre);
    }
    let clip = t.clip;
    let columns = overlap_of(centre.x, r, clip.xmin, clip.xmax);
    let rows = overlap_of(centre.y, r, clip.ymin, clip.ymax);
    if columns == Overlap::Outside || rows == Overlap::Outside {
        return 0;
    }
    let s = Sheet {
        surface: t.area.surface,
        clip,
        centre,
        inside: columns == Overlap::Inside && rows == Overlap::Inside,
    };
    // Two calls and not one on a chosen buffer: a borrow that a test chooses has no generated proof.
    if t.area.onscreen {
        ring(screen, stamps, s, r)
    } else {
        ring(store, stamps, s, r)
    }
}

// CIRCLE by its radius: the position stays.
pub fn circle(screen: &mut [u8], store: &mut [u8], t: Target, from: Point, radius: u16) -> Drawn
    requires { Ready t (length screen.old) (length store.old) }
    ensures { Drew t (circle t.pen from (nat_abs (coord radius)))
        (canvas screen.old store.old 0) result screen.new store.new }
{
    let r = coordinates::magnitude(radius);
    let stamps = stamps_for(t);
    let hits = draw_circle(screen, store, &stamps, t, from, r);
    Drawn {
        position: from,
        trap: false,
        hits,
    }
}
