// RECT: the outline of a rectangle, each pixel once, one pattern index along all four sides.
#![tactic(auto)]

ghost use Rattle.std.specs.Prelude.{◌≡◌, ◌+◌, ◌-◌, ◌≤◌, ◌<◌, length};
ghost use Rattle.model.specs.Ranges.{listed};
ghost use Rattle.model.specs.Coordinates.{coord};
ghost use Rattle.model.specs.Lines.{rectangle};
ghost use Rattle.canvas.specs.Canvas.{canvas, count_end, Drew, Painted};
ghost use Rattle.canvas.specs.Targets.{Ready};
ghost use Rattle.spans.specs.Spans.{longest_span};
ghost use Rattle.draw_outlines.specs.Outlines.{longest_outline, outline_at, outline_dot, outline_length};
ghost use Rattle.draw_outlines.specs.Outlines.{Level, SideOf, Small, TraceSideOf, Upright};

use canvas::{Course, Drawn, Heading, Offset, Target};
use model::Point;
use spans::Span;
use traces::slopes::Axes;
use traces::{Trace, lone_trace};

// The length from which an outline's level sides are drawn as spans: shorter ones are drawn sooner dot by dot
// than the strips of both are worked out.
const SHORTEST_SIDE: usize = 16;

// The length from which its upright sides are stamped: shorter ones are drawn sooner dot by dot than the stamps of
// both are worked out.
const SHORTEST_UPRIGHT: usize = 8;

// A side of an outline: n of its pixels from pixel `first` on, along an axis as the course goes, or back.
#[derive(Clone, Copy)]
struct Side {
    pub first: usize,
    pub n: usize,
    pub back: bool,
}

// The outline of a rectangle: its course, and its sides a = |dx| and b = |dy|.
#[derive(Clone, Copy)]
pub struct Outline {
    pub course: Course,
    pub a: usize,
    pub b: usize,
}

// How many pixels the outline has, by its sides a = |dx| and b = |dy|.
fn outline_length(a: usize, b: usize) -> usize
    requires { (a ≤ 32768) × (b ≤ 32768) }
    ensures { (result ≡ outline_length a b) × (result ≤ a + b + a + b + 1) }
{
    if a == 0 || b == 0 {
        a + b + 1
    } else {
        a + b + a + b
    }
}

// Pixel i of the outline: along x, along y, back along x, back along y.
fn outline_offset(a: usize, b: usize, i: usize) -> Offset
    requires { (a ≤ 32768) × (b ≤ 32768) × (i < a + b + a + b + 1) }
    ensures { (result ≡ outline_at a b i) × (result.x ≤ 32768) × (result.y ≤ 32768) }
{
    if i <= a {
        Offset { x: i, y: 0 }
    } else if i <= a + b {
        Offset { x: a, y: i - a }
    } else if i <= a + b + a {
        Offset {
            x: a + b + a - i,
            y: b,
        }
    } else {
        Offset {
            x: 0,
            y: a + b + a + b - i,
        }
    }
}

// Pixels of the outline dot by dot, n of them from the first: hits and how many of them are visible.
fn dotted(
    screen: &mut [u8],
    store: &mut [u8],
    t: Target,
    o: Outline,
    first: usize,
    n: usize,
    hits: usize,
) -> usize
    requires { Ready t (length screen.old) (length store.old) × Small o
        × (first + n ≤ o.a + o.b + o.a + o.b + 1) × (hits + n < count_end) }
    ensures { Painted t (listed first n (outline_dot t.pen o))
        (canvas screen.old store.old hits) (canvas screen.new store.new result) }
{
    let mut seen = hits;
    for i in first..first + n {
        let offset = outline_offset(o.a, o.b, i);
        let source = canvas::pattern_source(t.pen, i);
        seen = canvas::draw_dot(screen, store, t, o.course, offset, source, seen);
    }
    seen
}

// A level side as a span.
fn level_span(o: Outline, s: Side) -> Span
    requires { Small o × Level o s × (0 < s.n) }
    ensures { SideOf o s.first s.n result }
{
    let from = o.course.from;
    let heading = o.course.heading;
    let start = outline_offset(o.a, o.b, s.first);
    let x = coordinates::biased(from.x, heading.left, start.x);
    let y = coordinates::biased(from.y, heading.up, start.y);
    Span {
        x,
        y,
        left: heading.left != s.back,
        count: s.n,
        index: s.first,
    }
}

// An upright side as a trace.
fn upright_trace(o: Outline, s: Side) -> Trace
    requires { Small o × Upright o s × (0 < s.n) }
    ensures { TraceSideOf o s.first s.n result }
{
    let from = o.course.from;
    let heading = o.course.heading;
    let start = outline_offset(o.a, o.b, s.first);
    let x = coordinates::biased(from.x, heading.left, start.x);
    let y = coordinates::biased(from.y, heading.up, start.y);
    Trace {
        x,
        y,
        heading: Heading {
            left: false,
            up: heading.up != s.back,
        },
        axes: Axes {
            level: false,
            larger: s.n - 1,
            smaller: 0,
        },
        first: 0,
        index: s.first,
    }
}

// A level side drawn, as a span if it is long: hits and how many of its pixels are visible.
fn draw_level(
    screen: &mut [u8],
    store: &mut [u8],
    t: Target,
    o: Outline,
    s: Side,
    hits: usize,
) -> usize
    requires { Ready t (length screen.old) (length store.old) × Small o × Level o s
        × (hits + longest_span < count_end) }
    ensures { Painted t (listed s.first s.n (outline_dot t.pen o))
        (canvas screen.old store.old hits) (canvas screen.new store.new result) }
{
    if s.n < SHORTEST_SIDE {
        dotted(screen, store, t, o, s.first, s.n, hits)
    } else {
        spans::draw_alone(screen, store, t, level_span(o, s), hits)
    }
}

// An upright side drawn, stamped if it is long: hits and how many of its pixels are visible.
fn draw_upright(
    screen: &mut [u8],
    store: &mut [u8],
    t: Target,
    o: Outline,
    s: Side,
    hits: usize,
) -> usize
    requires { Ready t (length screen.old) (length store.old) × Small o × Upright o s
        × (hits + longest_span < count_end) }
    ensures { Painted t (listed s.first s.n (outline_dot t.pen o))
        (canvas screen.old store.old hits) (canvas screen.new store.new result) }
{
    if s.n < SHORTEST_UPRIGHT {
        dotted(screen, store, t, o, s.first, s.n, hits)
    } else {
        lone_trace(screen, store, t, upright_trace(o, s), hits)
    }
}

// A level side and the upright one after it: hits and how many of their pixels are visible.
fn draw_sides(
    screen: &mut [u8],
    store: &mut [u8],
    t: Target,
    o: Outline,
    level: Side,
    upright: Side,
    hits: usize,
) -> usize
    requires { Ready t (length screen.old) (length store.old) × Small o × Level o level × Upright o upright
        × (level.first + level.n ≡ upright.first) × (hits + longest_outline < count_end) }
    ensures { Painted t (listed level.first (level.n + upright.n) (outline_dot t.pen o))
        (canvas screen.old store.old hits) (canvas screen.new store.new result) }
{
    let seen = draw_level(screen, store, t, o, level, hits);
    draw_upright(screen, store, t, o, upright, seen)
}

// The whole outline, dot by dot if it is small and else by its sides: to the corner across, and back to where it began.
// A corner is the side's before it. How many of its pixels are visible.
fn draw_outline(screen: &mut [u8], store: &mut [u8], t: Target, o: Outline) -> usize
    requires { Ready t (length screen.old) (length store.old) × Small o }
    ensures { Painted t (listed 0 (outline_length o.a o.b) (outline_dot t.pen o))
        (canvas screen.old store.old 0) (canvas screen.new store.new result) }
{
    if o.a < SHORTEST_SIDE && o.b < SHORTEST_UPRIGHT {
        let n = outline_length(o.a, o.b);
        return dotted(screen, store, t, o, 0, n, 0);
    }
    let top = Side {
        first: 0,
        n: o.a + 1,
        back: false,
    };
    let right = Side {
        first: o.a + 1,
        n: o.b,
        back: false,
    };
    let hits = draw_sides(screen, store, t, o, top, right, 0);
    if o.a == 0 || o.b == 0 {
        return hits;
    }
    let bottom = Side {
        first: o.a + o.b + 1,
        n: o.a,
        back: true,
    };
    let left = Side {
        first: o.a + o.b + 1 + o.a,
        n: o.b - 1,
        back: true,
    };
    draw_sides(screen, store, t, o, bottom, left, hits)
}

// RECT by (dx,dy): the position stays.
pub fn rect(screen: &mut [u8], store: &mut [u8], t: Target, from: Point, dx: u16, dy: u16) -> Drawn
    requires { Ready t (length screen.old) (length store.old) }
    ensures { Drew t (rectangle t.pen from (coord dx) (coord dy))
        (canvas screen.old store.old 0) result screen.new store.new }
{
    let a = coordinates::magnitude(dx);
    let b = coordinates::magnitude(dy);
    let course = canvas::course_of(from, dx, dy);
    let o = Outline { course, a, b };
    let hits = draw_outline(screen, store, t, o);
    Drawn {
        position: from,
        trap: false,
        hits,
    }
}
