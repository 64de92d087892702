// POLYLINE and SCAN_LINES: the lines that an array in the store names. The array may stand in the store that
// is drawn on; it is read as the lines are drawn, and no line touches it.
#![tactic(auto)]

ghost use Rattle.std.specs.Prelude.{◌≡◌, false, ◌+◌, ◌*◌, ◌≤◌, ◌<◌, pos, length};
ghost use Rattle.model.specs.Coordinates.{coord, place, moved};
ghost use Rattle.model.specs.Dots.{drawing};
ghost use Rattle.model.specs.Lines.{line_dots, pairs_at, polyline, triples_at, scan_lines};
ghost use Rattle.canvas.specs.Canvas.{canvas, count_end, Drew, Painted, Reach};
ghost use Rattle.canvas.specs.Targets.{Ready};
ghost use Rattle.stamps.specs.Stamps.{StampsOf};
ghost use Rattle.spans.specs.Spans.{Strung};
ghost use Rattle.traces.specs.Slopes.{longest_line};
ghost use Rattle.draw_lines.specs.Segments.{dots_of, Traceable};
ghost use Rattle.draw_arrays.specs.Arrays.{segment_words, triple_words};

use canvas::{Drawn, Target};
use draw_lines::{Segment, whole_line};
use model::Point;

// The pair at a byte of the store, as a segment that begins with pixel `first` of its line, at pattern index `index`.
fn segment_at(store: &[u8], at: usize, first: usize, index: usize) -> Segment
    requires { at + 3 < length store.now }
    ensures { result ≡ segment_words store.now at first index }
{
    let dx = words::word(store, at);
    let dy = words::word(store, at + 2);
    Segment {
        dx,
        dy,
        first,
        index,
    }
}

// One segment of POLYLINE from the position, which goes to the segment's far end.
fn leg(
    screen: &mut [u8],
    store: &mut [u8],
    stamps: &[u8],
    t: Target,
    from: Drawn,
    s: Segment,
) -> Drawn
    requires { Ready t (length screen.old) (length store.old) × Traceable s
        × (from.hits + longest_line < count_end) × StampsOf t.pen t.area.surface.bits stamps.now }
    ensures { Drew t (drawing (dots_of t.pen from.position s)
        (moved from.position (coord s.dx) (coord s.dy)))
        (canvas screen.old store.old from.hits) result screen.new store.new }
{
    let hits = draw_lines::draw_segment(screen, store, stamps, t, from.position, s, from.hits);
    let position = coordinates::move_by(from.position, s.dx, s.dy);
    Drawn {
        position,
        trap: false,
        hits,
    }
}

// POLYLINE by the n pairs at a byte of the store: the first is a whole line, and each other goes on from where the
// one before ended, without its first pixel and with the next pattern index. The stamps are worked out once.
pub fn polyline(
    screen: &mut [u8],
    store: &mut [u8],
    t: Target,
    from: Point,
    array: usize,
    n: usize,
) -> Drawn
    requires { Ready t (length screen.old) (length store.old) × (n ≤ 65535)
        × Reach t (length store.old) array (4 * n) }
    ensures { Drew t (polyline t.pen from (pairs_at store.old array n))
        (canvas screen.old store.old 0) result screen.new store.new }
{
    let stamps = traces::stamps_of(t);
    let mut d = Drawn {
        position: from,
        trap: false,
        hits: 0,
    };
    let mut first = 0;
    let mut index = 0;
    for k in 0..n {
        let s = segment_at(store, array + 4 * k, first, index);
        d = leg(screen, store, &stamps, t, d, s);
        index += draw_lines::pixels_of(s);
        first = 1;
    }
    d
}

// A triple of SCAN_LINES: the move to the start of a horizontal line, and that line's length.
#[derive(Clone, Copy)]
struct Triple {
    pub dx: u16,
    pub dy: u16,
    pub len: u16,
}

// The triple at a byte of the store.
fn triple_at(store: &[u8], at: usize) -> Triple
    requires { at + 5 < length store.now }
    ensures { result ≡ triple_words store.now at }
{
    let dx = words::word(store, at);
    let dy = words::word(store, at + 2);
    let len = words::word(store, at + 4);
    Triple { dx, dy, len }
}

// A horizontal LINE by `len` from a position: to the right by the strips that it is handed, to the left by its
// own. Hits and how many of its pixels are visible.
fn line_either_way(
    screen: &mut [u8],
    store: &mut [u8],
    strips: &[u8],
    t: Target,
    from: Point,
    len: u16,
    hits: usize,
) -> usize
    requires { Ready t (length screen.old) (length store.old) × Strung t false strips.now
        × (hits + longest_line < count_end) }
    ensures { Painted t (line_dots t.pen (place from) (coord len) (pos 0))
        (canvas screen.old store.old hits) (canvas screen.new store.new result) }
{
    if coordinates::is_negative(len) {
        draw_lines::lone_line(screen, store, t, from, whole_line(len, 0), hits)
    } else {
        draw_lines::level_line(screen, store, strips, t, from, len, hits)
    }
}

// One triple of SCAN_LINES: the position moves by (dx,dy), and stays at the start of a horizontal LINE.
fn scan(
    screen: &mut [u8],
    store: &mut [u8],
    strips: &[u8],
    t: Target,
    from: Drawn,
    s: Triple,
) -> Drawn
    requires { Ready t (length screen.old) (length store.old) × Strung t false strips.now
        × (from.hits + longest_line < count_end) }
    ensures { Drew t (drawing (line_dots t.pen (place result.position) (coord s.len) (pos 0))
        (moved from.position (coord s.dx) (coord s.dy)))
        (canvas screen.old store.old from.hits) result screen.new store.new }
{
    let position = coordinates::move_by(from.position, s.dx, s.dy);
    let hits = line_either_way(screen, store, strips, t, position, s.len, from.hits);
    Drawn {
        position,
        trap: false,
        hits,
    }
}

// SCAN_LINES by the n triples at a byte of the store: each moves the position, and draws a LINE from there. The
// strips for lines to the right are worked out once.
pub fn scan_lines(
    screen: &mut [u8],
    store: &mut [u8],
    t: Target,
    from: Point,
    array: usize,
    n: usize,
) -> Drawn
    requires { Ready t (length screen.old) (length store.old) × (n ≤ 65535)
        × Reach t (length store.old) array (6 * n) }
    ensures { Drew t (scan_lines t.pen from (triples_at store.old array n))
        (canvas screen.old store.old 0) result screen.new store.new }
{
    let strips = spans::strips_of(t, false);
    let mut d = Drawn {
        position: from,
        trap: false,
        hits: 0,
    };
    for k in 0..n {
        let s = triple_at(store, array + 6 * k);
        d = scan(screen, store, &strips, t, d, s);
    }
    d
}
