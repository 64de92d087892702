// Horizontal runs of pixels (02, A.3), called spans here, since `run` is a call: which of their pixels lie in
// bitmap and clip is worked out first, once a span.
#![tactic(auto)]

ghost use Rattle.std.specs.Prelude.{◌≡◌, cond, ◌+◌, ◌-◌, ◌*◌, ◌<◌, ◌≤◌, length};
ghost use Rattle.model.specs.Bitmaps.{Depth};
ghost use Rattle.raster.specs.Operations.{truth_of};
ghost use Rattle.canvas.specs.Canvas.{canvas, count_end, Painted};
ghost use Rattle.canvas.specs.Targets.{Ready};
ghost use Rattle.strips.specs.Strokes.{shown, pattern_on};
ghost use Rattle.spans.specs.Spans.{Bounded, EdgesOf, Sighted, Strung, index_end, longest_span, span_dots};
ghost use Rattle.spans.specs.Spans.{Reached, leftmost_of, phase_of, span_changed};
ghost use Rattle.spans.specs.Examples.{Worked};
ghost use Rattle.spans.specs.Through.{Short, StencilFor};

use canvas::Target;
use coordinates::Edges;
use model::Pen;
use stencils::{Stencil, stencil_of};
use strips::inks::{back_of, fore_of};

// A span: its first pixel at (x,y), whether it goes to the left, how many pixels it has, and the pattern index
// of the first. x and y are 65,536 more than the coordinates, so that none is negative.
#[derive(Clone, Copy)]
pub struct Span {
    pub x: usize,
    pub y: usize,
    pub left: bool,
    pub count: usize,
    pub index: usize,
}

// The two edges of a span: the pixels from the first to below the second are those in bitmap and clip.
pub fn edges_of(t: Target, s: Span) -> Edges
    requires { (t.clip.xmax < t.area.surface.width) × (t.clip.ymax < t.area.surface.height) × Bounded s }
    ensures { EdgesOf t.area.surface t.clip s result }
{
    let clip = t.clip;
    if s.y < clip.ymin as usize + 65536 || s.y > clip.ymax as usize + 65536 {
        return Edges {
            first: 0,
            second: 0,
        };
    }
    coordinates::edges_between(s.x, s.left, s.count, clip.xmin, clip.xmax)
}

// Does nothing. Its contract is the edges of three spans, worked out.
pub fn edges_example()
    ensures { Worked }
{}

// The strips of a target's pen, for spans to the left or to the right: worked out once a command.
pub fn strips_of(t: Target, left: bool) -> [u8; 514]
    requires { Depth t.area.surface.bits × (t.truth ≡ truth_of t.pen.op) }
    ensures { Strung t left result }
{
    let pattern = if left {
        strips::reversed(t.pen.pattern)
    } else {
        t.pen.pattern
    };
    strips::woven(t.pen, t.truth, pattern, t.area.surface.bits)
}

// The column of the visible part's first pixel, from the left.
fn leftmost(s: Span, e: Edges) -> usize
    requires { (s.x < 262144) × (e.first ≤ longest_span) × Reached s e }
    ensures { result ≡ leftmost_of s e }
{
    if s.left {
        s.x + 1 - e.second - 65536
    } else {
        s.x + e.first - 65536
    }
}

// The pattern's index at the first column of the row, where the visible part begins at column c of it.
fn phase_of(s: Span, e: Edges, c: usize) -> usize
    requires { (s.index < index_end) × (e.first ≤ longest_span) × (0 < e.second) × (e.second ≤ longest_span) }
    ensures { (result ≡ phase_of s e c) × (result < 16) }
{
    if s.left {
        (31 - (s.index + e.second - 1) % 16 - c % 16) % 16
    } else {
        (s.index + e.first + 16 - c % 16) % 16
    }
}

// How many of n pixels from a pattern index on are drawn.
pub fn seen_of(pen: Pen, index: usize, n: usize) -> usize
    requires { n ≤ longest_span }
    ensures { result ≡ cond pen.transparent (shown (pattern_on pen.pattern) index n) n }
{
    if pen.transparent {
        strips::counted(pen.pattern, index % 16, n)
    } else {
        n
    }
}

// The visible part of a span drawn: its first and last bit in its row, and the row's first byte, are worked out
// before any pixel is drawn.
fn draw_part(screen: &mut [u8], store: &mut [u8], strips: &[u8], t: Target, s: Span, e: Edges)
    requires { Ready t (length screen.old) (length store.old) × Strung t s.left strips.now × Bounded s
        × EdgesOf t.area.surface t.clip s e × (e.first < e.second) }
    ensures { (screen.new ≡ cond t.area.onscreen
        (span_changed t s screen.old) screen.old)
        × (store.new ≡ cond t.area.onscreen store.old (span_changed t s store.old)) }
{
    let u = t.area.surface;
    let x = leftmost(s, e);
    let phase = phase_of(s, e, u.left + x);
    let row = u.base + 2 * (u.words * (u.top + (s.y - 65536)));
    let lo = (u.left + x) * u.bits;
    let hi = lo + (e.second - e.first) * u.bits;
    // Called in each branch: for a `&mut` that is one of two, no proof is generated.
    if t.area.onscreen {
        strips::stretch(screen, strips, phase, row, lo, hi);
    } else {
        strips::stretch(store, strips, phase, row, lo, hi);
    }
}

// Hits and how many of a span's pixels are visible, and the edges of what is to be drawn, if anything is.
fn sighted(t: Target, s: Span, hits: usize) -> (usize, Option<Edges>)
    requires { (t.clip.xmax < t.area.surface.width) × (t.clip.ymax < t.area.surface.height)
        × Bounded s × (hits + longest_span < count_end) }
    ensures { Sighted (EdgesOf t.area.surface t.clip s) t (span_dots t.pen s) hits result.0 result.1 }
{
    let e = edges_of(t, s);
    if e.first == e.second {
        return (hits, None);
    }
    let seen = hits + seen_of(t.pen, s.index + e.first, e.second - e.first);
    if t.picking {
        return (seen, None);
    }
    (seen, Some(e))
}

// A span drawn by the strips of its direction: hits and how many of its pixels are visible.
pub fn draw_span(
    screen: &mut [u8],
    store: &mut [u8],
    strips: &[u8],
    t: Target,
    s: Span,
    hits: usize,
) -> usize
    requires { Ready t (length screen.old) (length store.old) × Strung t s.left strips.now
        × Bounded s × (hits + longest_span < count_end) }
    ensures { Painted t (span_dots t.pen s)
        (canvas screen.old store.old hits) (canvas screen.new store.new result) }
{
    let (seen, part) = sighted(t, s, hits);
    if let Some(e) = part {
        draw_part(screen, store, strips, t, s, e);
    }
    seen
}

// A span drawn by itself: its strips are worked out once it is known that some of it is to be drawn.
pub fn draw_alone(screen: &mut [u8], store: &mut [u8], t: Target, s: Span, hits: usize) -> usize
    requires { Ready t (length screen.old) (length store.old) × Bounded s × (hits + longest_span < count_end) }
    ensures { Painted t (span_dots t.pen s)
        (canvas screen.old store.old hits) (canvas screen.new store.new result) }
{
    let (seen, part) = sighted(t, s, hits);
    if let Some(e) = part {
        let strips = strips_of(t, s.left);
        draw_part(screen, store, &strips, t, s, e);
    }
    seen
}

// The stencil of a short span's visible part: worked out once for spans that lie below one another.
pub fn stencil_for(t: Target, s: Span, e: Edges) -> Stencil
    requires { Short t s e }
    ensures { StencilFor t s e result }
{
    let u = t.area.surface;
    let bits = u.bits;
    let c = u.left + leftmost(s, e);
    let lo = c * bits;
    let hi = lo + (e.second - e.first) * bits;
    let turn = (phase_of(s, e, c) + lo / 16 * (16 / bits)) % 16;
    stencil_of(
        fore_of(t.pen, t.truth),
        back_of(t.pen, t.truth),
        bits,
        turn,
        lo,
        hi,
    )
}
