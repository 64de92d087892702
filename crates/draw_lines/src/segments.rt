// One segment of a line from a position, sloped or level. Every pixel of it takes its pattern index, drawn or not.
ghost use Rattle.std.specs.Prelude.{◌≡◌, true, ◌+◌, ◌≤◌, ◌<◌, pos, length};
ghost use Rattle.model.specs.Coordinates.{coord, negative, place};
ghost use Rattle.model.specs.Lines.{line_dots, pixels_from, segment_dots};
ghost use Rattle.canvas.specs.Canvas.{canvas, count_end, Painted};
ghost use Rattle.canvas.specs.Targets.{Ready};
ghost use Rattle.stamps.specs.Stamps.{StampsOf};
ghost use Rattle.spans.specs.Spans.{Strung};
ghost use Rattle.traces.specs.Slopes.{longest_line};
ghost use Rattle.draw_lines.specs.Segments.{dots_of, whole_line, Traceable, AxesOf, LevelSpan, TraceOf};

use canvas::Target;
use model::Point;
use spans::Span;
use traces::Trace;
use traces::slopes::Axes;

// The length from which a horizontal line is drawn as a span: a shorter one is traced sooner than its strips are
// worked out.
const SHORTEST_SPAN: usize = 64;

// A segment of a line by (dx,dy): the line's pixels from pixel `first` on, which takes pattern index `index`.
#[derive(Clone, Copy)]
pub struct Segment {
    pub dx: u16,
    pub dy: u16,
    pub first: usize,
    pub index: usize,
}

// A whole line as a segment: all its pixels, the pattern begun with the first.
pub fn whole_line(dx: u16, dy: u16) -> Segment
    ensures { (result ≡ whole_line dx dy) × Traceable result }
{
    Segment {
        dx,
        dy,
        first: 0,
        index: 0,
    }
}

// How many pixels a segment has: so many pattern indexes are taken.
pub fn pixels_of(s: Segment) -> usize
    requires { Traceable s }
    ensures { (result ≡ pixels_from s.first (coord s.dx) (coord s.dy)) × (result ≤ longest_line) }
{
    let axes = axes_of(s.dx, s.dy);
    axes.larger + 1 - s.first
}

// The axes of a line by (dx,dy): x is the major one where the magnitudes are equal.
pub fn axes_of(dx: u16, dy: u16) -> Axes
    ensures { AxesOf (coord dx) (coord dy) result }
{
    let a = coordinates::magnitude(dx);
    let b = coordinates::magnitude(dy);
    Axes {
        level: b <= a,
        larger: a.max(b),
        smaller: a.min(b),
    }
}

// Whether a line by (dx,dy) is drawn as a span: it is horizontal, and not short.
pub fn is_span(dx: u16, dy: u16) -> bool
    ensures { result ≡ true → dy ≡ 0 }
{
    dy == 0 && coordinates::magnitude(dx) >= SHORTEST_SPAN
}

// A segment from a position as a trace.
pub fn trace_of(from: Point, s: Segment) -> Trace
    requires { Traceable s }
    ensures { TraceOf from s result }
{
    let Segment {
        dx,
        dy,
        first,
        index,
    } = s;
    let course = canvas::course_of(from, dx, dy);
    let axes = axes_of(dx, dy);
    let x = coordinates::biased(from.x, false, 0);
    let y = coordinates::biased(from.y, false, 0);
    Trace {
        x,
        y,
        heading: course.heading,
        axes,
        first,
        index,
    }
}

// The span of a horizontal segment by `dx` from a position.
fn level_span(from: Point, s: Segment) -> Span
    requires { Traceable s }
    ensures { LevelSpan from s result }
{
    let left = coordinates::is_negative(s.dx);
    let x = coordinates::biased(from.x, left, s.first);
    let y = coordinates::biased(from.y, false, 0);
    let count = coordinates::magnitude(s.dx) + 1 - s.first;
    Span {
        x,
        y,
        left,
        count,
        index: s.index,
    }
}

// A horizontal line by `len` from a position, by the strips of its direction: hits and how many of its pixels are
// visible.
pub fn level_line(
    screen: &mut [u8],
    store: &mut [u8],
    strips: &[u8],
    t: Target,
    from: Point,
    len: u16,
    hits: usize,
) -> usize
    requires { Ready t (length screen.old) (length store.old) × Strung t (negative (coord len)) strips.now
        × (hits + longest_line < count_end) }
    ensures { Painted t (line_dots t.pen (place from) (coord len) (pos 0))
        (canvas screen.old store.old hits) (canvas screen.new store.new result) }
{
    let s = level_span(from, whole_line(len, 0));
    spans::draw_span(screen, store, strips, t, s, hits)
}

// A horizontal segment by `dx` by itself, which works out its own strips.
pub fn lone_line(
    screen: &mut [u8],
    store: &mut [u8],
    t: Target,
    from: Point,
    s: Segment,
    hits: usize,
) -> usize
    requires { Ready t (length screen.old) (length store.old) × Traceable s × (hits + longest_line < count_end) }
    ensures { Painted t (segment_dots t.pen (place from) (coord s.dx) (pos 0) s.first s.index)
        (canvas screen.old store.old hits) (canvas screen.new store.new result) }
{
    let span = level_span(from, s);
    spans::draw_alone(screen, store, t, span, hits)
}

// A segment from a position, by the stamps of its pen: hits and how many of its pixels are visible.
pub fn draw_segment(
    screen: &mut [u8],
    store: &mut [u8],
    stamps: &[u8],
    t: Target,
    from: Point,
    s: Segment,
    hits: usize,
) -> usize
    requires { Ready t (length screen.old) (length store.old) × Traceable s × (hits + longest_line < count_end)
        × StampsOf t.pen t.area.surface.bits stamps.now }
    ensures { Painted t (dots_of t.pen from s) (canvas screen.old store.old hits)
        (canvas screen.new store.new result) }
{
    if is_span(s.dx, s.dy) {
        lone_line(screen, store, t, from, s, hits)
    } else {
        let trace = trace_of(from, s);
        traces::draw_trace(screen, store, stamps, t, trace, hits)
    }
}
