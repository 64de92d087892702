// The visible pixels of a trace, from one to the next: where a pixel lies is stepped, and nothing is tested but whether
// the step is straight or diagonal.
ghost use Rattle.std.specs.Prelude.{◌≡◌, ℕ, ◌+◌, ◌-◌, ◌*◌, ◌^◌, ◌<◌, ◌≤◌, length};
ghost use Rattle.stamps.specs.Stamps.{StampsOf};
ghost use Rattle.traces.specs.Slopes.{Sloped};
ghost use Rattle.traces.specs.Walks.{step_of, steps_of, next_spot, spot_at, Locatable};
ghost use Rattle.traces.specs.Walks.{Walkable, walked, solid, pattern_digit, Tracing, traced};

use crate::Trace;
use crate::slopes::slope_at;
use canvas::Target;
use coordinates::Edges;
use model::Surface;
use stamps::stamp;

// The two steps of a line, in bits from pixel to pixel: along the major axis, or along both. The rest of a pixel's
// minor offset tells which: below `over` the step is straight and the rest becomes larger by `rise`, else smaller by
// `over`. A step back wraps.
#[derive(Clone, Copy)]
pub struct Steps {
    pub straight: usize,
    pub diagonal: usize,
    pub rise: usize,
    pub over: usize,
}

// Where a pixel of a line lies: the bits of the surface's words before it, and the rest of its minor offset.
#[derive(Clone, Copy)]
pub struct Spot {
    pub bit: usize,
    pub rest: usize,
}

// So many on, or back: added to a number, it wraps.
fn step_of(back: bool, n: usize) -> usize
    ensures { result ≡ step_of back n }
{
    if back { n.wrapping_neg() } else { n }
}

// The steps of a trace.
fn steps_of(u: Surface, s: Trace) -> Steps
    requires { (16 * u.words < 2 ^ 64) × Sloped s.axes }
    ensures { result ≡ steps_of u s }
{
    let axes = s.axes;
    let heading = s.heading;
    let across = step_of(heading.left, u.bits);
    let down = step_of(heading.up, 16 * u.words);
    let rise = 2 * axes.smaller;
    Steps {
        straight: if axes.level { across } else { down },
        diagonal: across.wrapping_add(down),
        rise,
        over: 2 * axes.larger - rise,
    }
}

// Where pixel i of a trace lies, which is a pixel of the surface.
fn spot_of(u: Surface, s: Trace, i: usize) -> Spot
    requires { Locatable u s i }
    ensures { result ≡ spot_at u s i }
{
    let axes = s.axes;
    let heading = s.heading;
    let slope = slope_at(axes, i);
    let (across, down) = if axes.level {
        (i, slope.at)
    } else {
        (slope.at, i)
    };
    let x = s.x.wrapping_add(step_of(heading.left, across));
    let y = s.y.wrapping_add(step_of(heading.up, down));
    let before = 16 * (u.words * (u.top + (y - 65536)));
    Spot {
        bit: before + (u.left + (x - 65536)) * u.bits,
        rest: slope.rest,
    }
}

// The next spot of a line.
fn next_spot(s: Spot, g: Steps) -> Spot
    requires { s.rest + g.rise < 2 ^ 64 }
    ensures { result ≡ next_spot s g }
{
    if s.rest < g.over {
        Spot {
            bit: s.bit.wrapping_add(g.straight),
            rest: s.rest + g.rise,
        }
    } else {
        Spot {
            bit: s.bit.wrapping_add(g.diagonal),
            rest: s.rest - g.over,
        }
    }
}

// The bits that a line's pixels are stamped under, from one pixel on.
trait Dashes: Copy {
    ghost digits: { Self → ℕ → ℕ };

    // That of the pixel.
    fn first(self) -> usize
        ensures { (result ≡ digits self 0) × (result < 2) };

    // Those from the next pixel on.
    fn turned(self) -> Self
        ensures { (k : ℕ) → digits result k ≡ digits self (k + 1) };
}

// Ones alone.
#[derive(Clone, Copy)]
struct Solid;

impl Dashes for Solid {
    ghost digits = { λ _. solid };

    fn first(self) -> usize {
        1
    }

    fn turned(self) -> Solid {
        self
    }
}

// A pattern's, over and over.
impl Dashes for u16 {
    ghost digits = { pattern_digit };

    fn first(self) -> usize {
        (self / 32768) as usize
    }

    fn turned(self) -> u16 {
        stamps::turned(self)
    }
}

// n pixels from a spot on, stamped under the bits of their dashes.
fn walk_by<D: Dashes>(
    buffer: &mut [u8],
    stamps: &[u8],
    base: usize,
    from: Spot,
    g: Steps,
    n: usize,
    dashes: D,
)
    requires { Walkable base from g n (length stamps.now) (length buffer.old) }
    ensures { buffer.new ≡ walked stamps.now base from g (D.digits dashes) n buffer.old }
{
    let mut spot = from;
    let mut rest = dashes;
    stamp(buffer, stamps, base, spot.bit, rest.first());
    for _ in 1..n {
        spot = next_spot(spot, g);
        rest = rest.turned();
        stamp(buffer, stamps, base, spot.bit, rest.first());
    }
}

// Rows a multiple of 1,024 bytes apart fall on few places of the machine's cache. A steep line of many rows is drawn
// sooner there by the loop that reads less far ahead (docs/BENCH.md). Both loops draw the same, so nothing is promised.
fn crowded(level: bool, words: usize, n: usize) -> bool {
    !level & ((words % 512 == 0) & (64 <= n))
}

// The visible pixels of a trace drawn in the buffer that holds the bitmap.
pub fn walk(buffer: &mut [u8], stamps: &[u8], t: Target, s: Trace, e: Edges)
    requires { Tracing t s e buffer.old × StampsOf t.pen t.area.surface.bits stamps.now }
    ensures { buffer.new ≡ traced t s buffer.old }
{
    let u = t.area.surface;
    let g = steps_of(u, s);
    let from = spot_of(u, s, e.first);
    let n = e.second - e.first;
    let pattern = strips::patterns::rotate_left(t.pen.pattern, (e.first - s.first + s.index) % 16);
    // Both are worked out, by `&`: with `&&` the compiler makes other loops, which draw steep lines slower.
    if (pattern == u16::MAX) & !crowded(s.axes.level, u.words, n) {
        walk_by(buffer, stamps, u.base, from, g, n, Solid);
    } else {
        walk_by(buffer, stamps, u.base, from, g, n, pattern);
    }
}
