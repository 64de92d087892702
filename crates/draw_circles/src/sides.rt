// The columns or rows at a distance from the centre, on either side, and the limits of drawing. Coordinates are
// kept 65,536 larger than they are.
ghost use Rattle.std.specs.Prelude.{◌≡◌, true, ◌≤◌};
ghost use Rattle.draw_circles.specs.Sides.{SidesIn, SidesOf, OverlapOf};

use coordinates::biased;

// A column or row, and whether it is to be drawn. With an Option in its place a circle takes 40 percent longer: the
// number then depends on the test, and is no longer stepped along the walk.
#[derive(Clone, Copy)]
pub struct Side {
    pub at: usize,
    pub on: bool,
}

// The columns or rows k after and k before another. Each is to be drawn where it lies in the limits, and the second
// where it is not the first again.
#[derive(Clone, Copy)]
pub struct Sides {
    pub after: Side,
    pub before: Side,
}

// The two sides at a distance, from lo to hi; where all are known to lie inside, nothing is tested.
pub fn sides_of(at: u16, k: usize, lo: u16, hi: u16, inside: bool) -> Sides
    requires { (k ≤ 32768) × (inside ≡ true → SidesIn lo hi at k) }
    ensures { SidesOf lo hi at k result }
{
    let first = biased(at, false, k);
    let second = biased(at, true, k);
    if inside {
        let after = Side {
            at: first,
            on: true,
        };
        let before = Side {
            at: second,
            on: 0 < k,
        };
        return Sides { after, before };
    }
    let low = lo as usize + 65536;
    let high = hi as usize + 65536;
    let after = Side {
        at: first,
        on: (low <= first) & (first <= high),
    };
    let before = Side {
        at: second,
        on: (0 < k) & ((low <= second) & (second <= high)),
    };
    Sides { after, before }
}

// How the coordinates up to r from another overlap the limits: none of them lies there, some do, or all.
#[derive(Clone, Copy, PartialEq, Eq)]
pub enum Overlap {
    Outside,
    Across,
    Inside,
}

// How the coordinates from at - r to at + r overlap those from lo to hi.
pub fn overlap_of(at: u16, r: usize, lo: u16, hi: u16) -> Overlap
    requires { r ≤ 32768 }
    ensures { OverlapOf lo hi at r result }
{
    let after = biased(at, false, r);
    let before = biased(at, true, r);
    let first = lo as usize + 65536;
    let last = hi as usize + 65536;
    if after < first || last < before {
        return Overlap::Outside;
    }
    if first <= before && after <= last {
        return Overlap::Inside;
    }
    Overlap::Across
}
