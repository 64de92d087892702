// A grid of cells drawn row by row: each row is a short span whose pattern is its cells, drawn through one stencil for
// all rows.
ghost use Rattle.std.specs.Prelude.{◌≡◌, ◌+◌, ◌<◌, true, length};
ghost use Rattle.canvas.specs.Canvas.{canvas, count_end, Painted};
ghost use Rattle.canvas.specs.Targets.{Ready};
ghost use Rattle.draw_text.specs.Cells.{most_cells, GridFits, grid_dots};
ghost use Rattle.draw_text.specs.Rows.{
  cell_target,
  FirstSpan,
  RowInside,
  RowsDrawn,
  RowsMet,
  RowsPlanned,
  RowsRoomy,
  SomeCells,
  row_start,
  seen_in,
};

use crate::cells::{CellStyle, Grid, grid_by_dots};
use canvas::{Course, Target};
use coordinates::{Edges, biased};
use model::Pen;
use spans::Span;
use stencils::{Stencil, draw_cells};

// What the rows of a grid have in common: the span of the first, which of its pixels lie in the clip's columns, and
// the stencil of these.
#[derive(Clone, Copy)]
pub struct RowPlan {
    pub span: Span,
    pub edges: Edges,
    pub stencil: Stencil,
}

// A target whose pen has a row's cells for its pattern.
fn aim_at(t: Target, transparent: bool, cells: u16) -> Target
    ensures { result ≡ cell_target t transparent cells }
{
    let pen = Pen {
        pattern: cells,
        transparent,
        ..t.pen
    };
    Target { pen, ..t }
}

// The span of a grid's first row.
fn first_span(course: Course, width: usize) -> Span
    ensures { FirstSpan course width result }
{
    Span {
        x: biased(course.from.x, false, 0),
        y: biased(course.from.y, false, 0),
        left: course.heading.left,
        count: width,
        index: 0,
    }
}

// How many cells of columns e.first to below e.second, in rows f.first to below f.second, are visible.
fn seen_in(cells: [u16; 16], transparent: bool, e: Edges, f: Edges) -> usize
    requires { SomeCells e f }
    ensures { result ≡ seen_in transparent cells e f }
{
    if transparent {
        return grids::ones_in(cells, e, f);
    }
    (e.second - e.first) * (f.second - f.first)
}

// Rows from left to right, where they go to the left or to the right.
fn met_rows(left: bool, cells: [u16; 16]) -> [u16; 16]
    ensures { RowsMet left cells result }
{
    if left {
        return grids::mirrored(cells);
    }
    cells
}

// The byte at which a row begins.
#[tactic(auto, using(crate::proofs::RowLaws::row_sized))]
fn row_byte(t: Target, course: Course, number: usize) -> usize
    requires { RowInside t course number }
    ensures { result ≡ row_start t course number }
{
    let u = t.area.surface;
    let y = biased(course.from.y, course.heading.up, number);
    u.base + 2 * (u.words * (u.top + (y - 65536)))
}

// Whether a buffer of so many bytes has four whole words for each four that the rows are drawn on: it has if it
// does so for the lowest row.
fn roomy(t: Target, style: CellStyle, plan: RowPlan, f: Edges, bytes: usize) -> bool
    requires { Ready t bytes bytes × RowsPlanned t style plan f }
    ensures { result ≡ true → RowsRoomy t style plan f bytes }
{
    let s = plan.stencil;
    let up = style.course.heading.up;
    let lowest = if up { f.first } else { f.second - 1 };
    row_byte(t, style.course, lowest) + 2 * s.word + 8 * ((s.end + 63) / 64) <= bytes
}

// Rows drawn in the buffer that holds the bitmap.
fn draw_rows(buf: &mut [u8], t: Target, style: CellStyle, plan: RowPlan, f: Edges, met: [u16; 16])
    requires { Ready t (length buf.old) (length buf.old) × RowsPlanned t style plan f
        × RowsRoomy t style plan f (length buf.old) }
    ensures { RowsDrawn t style plan f met buf.old buf.new }
{
    for number in f.first..f.second {
        let row = row_byte(t, style.course, number);
        draw_cells(buf, plan.stencil, row, met[number]);
    }
}

// A grid: hits, and one more for each visible cell.
pub fn draw_grid(
    screen: &mut [u8],
    store: &mut [u8],
    t: Target,
    style: CellStyle,
    g: Grid,
    hits: usize,
) -> usize
    requires { Ready t (length screen.old) (length store.old) × GridFits g × (hits + most_cells < count_end) }
    ensures { Painted t (grid_dots t.pen style g)
        (canvas screen.old store.old hits) (canvas screen.new store.new result) }
{
    let clip = t.clip;
    let area = t.area;
    let span = first_span(style.course, g.width);
    let edges = coordinates::edges_between(span.x, span.left, span.count, clip.xmin, clip.xmax);
    if edges.first == edges.second {
        return hits;
    }
    let up = style.course.heading.up;
    let f = coordinates::edges_between(span.y, up, g.height, clip.ymin, clip.ymax);
    if f.first == f.second {
        return hits;
    }
    let stencil = spans::stencil_for(aim_at(t, style.transparent, 0), span, edges);
    let plan = RowPlan {
        span,
        edges,
        stencil,
    };
    let seen = hits + seen_in(g.cells, style.transparent, edges, f);
    if t.picking {
        return seen;
    }
    let bytes = if area.onscreen {
        screen.len()
    } else {
        store.len()
    };
    if roomy(t, style, plan, f, bytes) {
        let met = met_rows(span.left, g.cells);
        // Two calls and not one on a chosen buffer: a borrow that a test chooses has no generated proof.
        if area.onscreen {
            draw_rows(screen, t, style, plan, f, met);
        } else {
            draw_rows(store, t, style, plan, f, met);
        }
        return seen;
    }
    grid_by_dots(screen, store, t, style, g, hits)
}
