// The axes of a line, and the minor offset of its pixels, floor((2 × i × m + n) / (2 × n)), with the rest of that
// division.
ghost use Rattle.std.specs.Prelude.{◌≤◌};
ghost use Rattle.traces.specs.Slopes.{Sloped, Reaches, SlopeAt};

// The axes of a line: the larger magnitude goes along the major axis, which is x if level, and the smaller
// along the minor.
#[derive(Clone, Copy)]
pub struct Axes {
    pub level: bool,
    pub larger: usize,
    pub smaller: usize,
}

// The minor offset of a pixel, and the rest of its division.
#[derive(Clone, Copy)]
pub struct Slope {
    pub at: usize,
    pub rest: usize,
}

// The slope at pixel i of a line.
pub fn slope_at(axes: Axes, i: usize) -> Slope
    requires { Sloped axes × (i ≤ axes.larger) }
    ensures { SlopeAt axes i result }
{
    if i == 0 {
        return Slope {
            at: 0,
            rest: axes.larger,
        };
    }
    let sum = 2 * i * axes.smaller + axes.larger;
    let span = 2 * axes.larger;
    Slope {
        at: sum / span,
        rest: sum % span,
    }
}

// The first pixel of a line whose minor offset is a or more; the one after the last if there is none.
#[tactic(auto, using(crate::proofs::SlopeLaws::reaches_ceil))]
pub fn reach(axes: Axes, a: usize) -> usize
    requires { Sloped axes }
    ensures { Reaches axes a result }
{
    if a == 0 {
        return 0;
    }
    if axes.smaller < a {
        return axes.larger + 1;
    }
    (2 * axes.larger * a - axes.larger).div_ceil(2 * axes.smaller)
}
