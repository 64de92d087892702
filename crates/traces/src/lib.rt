// Straight lines of pixels, sloped or upright: which of their pixels lie in bitmap and clip is worked out first, and
// these are stamped one after another.
#![tactic(auto)]

pub mod slopes; // slopes.rt: the axes of a line, and the minor offset of its pixels
pub mod edges; // edges.rt: which pixels lie in the clip
pub mod walks; // walks.rt: the visible pixels, from one to the next

ghost use Rattle.std.specs.Prelude.{◌≡◌, ◌+◌, ◌<◌, cond, length};
ghost use Rattle.model.specs.Bitmaps.{Depth};
ghost use Rattle.raster.specs.Operations.{truth_of};
ghost use Rattle.canvas.specs.Canvas.{canvas, count_end, Painted};
ghost use Rattle.canvas.specs.Targets.{Ready};
ghost use Rattle.stamps.specs.Stamps.{StampsOf};
ghost use Rattle.spans.specs.Spans.{Sighted};
ghost use Rattle.traces.specs.Slopes.{longest_line};
ghost use Rattle.traces.specs.Traces.{TraceSmall, trace_dots};
ghost use Rattle.traces.specs.Edges.{TraceEdges};
ghost use Rattle.traces.specs.Walks.{traced};

use canvas::{Heading, Target};
use coordinates::Edges;
use edges::edges_of;
use slopes::Axes;
use walks::walk;

// A line's pixels from pixel `first` on, which takes pattern index `index`. The line begins at (x,y); these are 65,536
// more than the coordinates, so that none is negative.
#[derive(Clone, Copy)]
pub struct Trace {
    pub x: usize,
    pub y: usize,
    pub heading: Heading,
    pub axes: Axes,
    pub first: usize,
    pub index: usize,
}

// The stamps of a target's pen: worked out once a command, or once for commands that follow one another.
pub fn stamps_of(t: Target) -> [u8; 64]
    requires { Depth t.area.surface.bits × (t.truth ≡ truth_of t.pen.op) }
    ensures { StampsOf t.pen t.area.surface.bits result }
{
    stamps::stamps_of(t.pen, t.truth, t.area.surface.bits)
}

// The visible pixels of a trace drawn on the bitmap, by the stamps of its pen.
fn draw_part(screen: &mut [u8], store: &mut [u8], stamps: &[u8], t: Target, s: Trace, e: Edges)
    requires { Ready t (length screen.old) (length store.old) × TraceSmall s
        × TraceEdges t.clip s e × (e.first < e.second)
        × StampsOf t.pen t.area.surface.bits stamps.now }
    ensures { (screen.new ≡ cond t.area.onscreen
        (traced t s screen.old) screen.old)
        × (store.new ≡ cond t.area.onscreen store.old
        (traced t s store.old)) }
{
    // Called in each branch: for a `&mut` that is one of two, no proof is generated.
    if t.area.onscreen {
        walk(screen, stamps, t, s, e);
    } else {
        walk(store, stamps, t, s, e);
    }
}

// Hits and how many of a trace's pixels are visible, and the edges of what is to be drawn, if anything is.
fn sighted(t: Target, s: Trace, hits: usize) -> (usize, Option<Edges>)
    requires { (t.clip.xmax < t.area.surface.width) × (t.clip.ymax < t.area.surface.height)
        × TraceSmall s × (hits + longest_line < count_end) }
    ensures { Sighted (TraceEdges t.clip s) t (trace_dots t.pen s) hits result.0 result.1 }
{
    let e = edges_of(t.clip, s);
    if e.first == e.second {
        return (hits, None);
    }
    let seen = hits + spans::seen_of(t.pen, s.index + (e.first - s.first), e.second - e.first);
    if t.picking {
        return (seen, None);
    }
    (seen, Some(e))
}

// A trace drawn by the stamps of its pen: hits and how many of its pixels are visible.
pub fn draw_trace(
    screen: &mut [u8],
    store: &mut [u8],
    stamps: &[u8],
    t: Target,
    s: Trace,
    hits: usize,
) -> usize
    requires { Ready t (length screen.old) (length store.old) × TraceSmall s
        × (hits + longest_line < count_end) × StampsOf t.pen t.area.surface.bits stamps.now }
    ensures { Painted t (trace_dots t.pen s)
        (canvas screen.old store.old hits) (canvas screen.new store.new result) }
{
    let (seen, part) = sighted(t, s, hits);
    if let Some(e) = part {
        draw_part(screen, store, stamps, t, s, e);
    }
    seen
}

// A trace drawn by itself: its stamps are worked out once it is known that some of it is to be drawn.
pub fn lone_trace(screen: &mut [u8], store: &mut [u8], t: Target, s: Trace, hits: usize) -> usize
    requires { Ready t (length screen.old) (length store.old) × TraceSmall s
        × (hits + longest_line < count_end) }
    ensures { Painted t (trace_dots t.pen s)
        (canvas screen.old store.old hits) (canvas screen.new store.new result) }
{
    let (seen, part) = sighted(t, s, hits);
    if let Some(e) = part {
        let stamps = stamps_of(t);
        draw_part(screen, store, &stamps, t, s, e);
    }
    seen
}
