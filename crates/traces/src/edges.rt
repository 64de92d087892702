// Which pixels of a trace lie in the clip, worked out before any is drawn: they follow one another.
ghost use Rattle.std.specs.Prelude.{◌+◌, ◌≤◌};
ghost use Rattle.traces.specs.Slopes.{Sloped};
ghost use Rattle.traces.specs.Traces.{TraceSmall};
ghost use Rattle.traces.specs.Edges.{Joint, TraceEdges};

use crate::Trace;
use crate::slopes::{Axes, reach};
use coordinates::{Edges, edges_between};
use model::Clip;

// Of a line's pixels from `first` on, those whose number is among the one's edges and whose minor offset is among
// the other's.
fn joint(axes: Axes, first: usize, major: Edges, minor: Edges) -> Edges
    requires { Sloped axes × (major.second ≤ axes.larger + 1) }
    ensures { Joint axes first major minor result }
{
    let from = reach(axes, minor.first);
    let end = reach(axes, minor.second);
    let start = first.max(major.first.max(from));
    coordinates::among(start, end, major.second)
}

// The pixels of a trace that lie in the clip.
pub fn edges_of(clip: Clip, s: Trace) -> Edges
    requires { TraceSmall s }
    ensures { TraceEdges clip s result }
{
    let axes = s.axes;
    let heading = s.heading;
    let (across, down) = if axes.level {
        (axes.larger + 1, axes.smaller + 1)
    } else {
        (axes.smaller + 1, axes.larger + 1)
    };
    let columns = edges_between(s.x, heading.left, across, clip.xmin, clip.xmax);
    let rows = edges_between(s.y, heading.up, down, clip.ymin, clip.ymax);
    if axes.level {
        joint(axes, s.first, columns, rows)
    } else {
        joint(axes, s.first, rows, columns)
    }
}
