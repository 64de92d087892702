// Coordinates: 16-bit patterns read as signed numbers, offsets with their sign, moves that wrap. Signed
// arithmetic stays here.
#![tactic(auto)]

ghost use Rattle.std.specs.Prelude.{◌≡◌, ◌-◌, ◌<◌, ◌≤◌, ◌+ℤ◌, unsigned_abs};
ghost use Rattle.model.specs.Coordinates.{coord, negative, moved};
ghost use Rattle.coordinates.specs.Offsets.{directed, index_in, unbiased, Among, Between};

use model::Point;

// The whole number that a 16-bit pattern stands for.
pub fn signed(p: u16) -> i32
    ensures { result ≡ coord p }
{
    if p < 32768 {
        p as i32
    } else {
        (p as i32) - 65536
    }
}

// Whether a pattern stands for a negative number.
pub fn is_negative(d: u16) -> bool
    ensures { result ≡ negative (coord d) }
{
    if d < 32768 {
        return false;
    }
    true
}

// The magnitude of an offset, -32768 included: widened, then negated.
pub fn magnitude(d: u16) -> usize
    ensures { (result ≡ unsigned_abs (coord d)) × (result ≤ 32768) }
{
    let wide = signed(d);
    if wide < 0 {
        (-wide) as usize
    } else {
        wide as usize
    }
}

// at + k, or at - k if back.
pub fn along(at: u16, back: bool, k: usize) -> i32
    requires { k ≤ 65536 }
    ensures { result ≡ coord at +ℤ directed back k }
{
    let from = signed(at);
    if back {
        from - (k as i32)
    } else {
        from + (k as i32)
    }
}

// at + k, or at - k if back, as an index where it lies from lo to hi.
pub fn index_between(at: u16, back: bool, k: usize, lo: u16, hi: u16) -> Option<usize>
    requires { k ≤ 65536 }
    ensures { result ≡ index_in lo hi (coord at +ℤ directed back k) }
{
    let z = along(at, back, k);
    if z < lo as i32 {
        return None;
    }
    if z > hi as i32 {
        return None;
    }
    Some(z as usize)
}

// Two edges: of the numbers from 0 on, those from the first to below the second.
#[derive(Clone, Copy)]
pub struct Edges {
    pub first: usize,
    pub second: usize,
}

// at + k, or at - k if back, and 65,536 more: never negative.
pub fn biased(at: u16, back: bool, k: usize) -> usize
    requires { k ≤ 32768 }
    ensures { (unbiased result ≡ coord at +ℤ directed back k) × (result < 131072) }
{
    let from = ((at as usize) + 32768) % 65536 + 32768;
    if back { from - k } else { from + k }
}

// a - b, or 0 where b is larger.
fn beyond(a: usize, b: usize) -> usize
    ensures { result ≡ a - b }
{
    if a < b { 0 } else { a - b }
}

// Of the numbers below n, those from first to below end: the edges of none are 0.
pub fn among(first: usize, end: usize, n: usize) -> Edges
    ensures { Among first end n result }
{
    let second = if end < n { end } else { n };
    if second <= first {
        return Edges {
            first: 0,
            second: 0,
        };
    }
    Edges { first, second }
}

// Of n steps from a coordinate, on or back, which lie from lo to hi: the one sum of edges for spans and copies.
// The coordinate is 65,536 more than it is.
pub fn edges_between(at: usize, back: bool, n: usize, lo: u16, hi: u16) -> Edges
    requires { (at < 262144) × (n ≤ 65536) }
    ensures { Between lo hi (unbiased at) back n result }
{
    let low = lo as usize + 65536;
    let high = hi as usize + 65536;
    if back {
        let first = beyond(at, high);
        let end = beyond(at + 1, low);
        return among(first, end, n);
    }
    let first = beyond(low, at);
    let end = beyond(high + 1, at);
    among(first, end, n)
}

// The position after a move, wrapped at 16 bits: a wrapping add on its bit patterns.
pub fn move_by(p: Point, dx: u16, dy: u16) -> Point
    ensures { result ≡ moved p (coord dx) (coord dy) }
{
    let x = std::num::wrapping_add_u16(p.x, dx);
    let y = std::num::wrapping_add_u16(p.y, dy);
    Point { x, y }
}
