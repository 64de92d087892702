// The cells of a character: a grid of rows that lie along x, whatever the rotation; and a grid drawn dot by dot.
ghost use Rattle.std.specs.Prelude.{◌≡◌, ◌+◌, ◌*◌, ◌<◌, ◌≤◌, cond, length};
ghost use Rattle.model.specs.Glyphs.{height_of};
ghost use Rattle.canvas.specs.Canvas.{canvas, count_end, Painted};
ghost use Rattle.canvas.specs.Targets.{Ready};
ghost use Rattle.draw_text.specs.Cells.{
  style_of,
  most_columns,
  most_rows,
  most_cells,
  CellsOf,
  StoredCells,
  GridOf,
  GridFits,
  RowFits,
  row_dots,
  grid_dots,
};

use canvas::{Course, Heading, Offset, Target};
use fault_text::{height_of, width_of};
use model::Point;

// How the cells of a character are drawn: the course that they take from the position, whether a row of them
// goes along y, and whether bits of 0 are left out.
#[derive(Clone, Copy)]
pub struct CellStyle {
    pub course: Course,
    pub sideways: bool,
    pub transparent: bool,
}

// How cells are drawn from a position at a rotation in quarter turns: to the left from 180 on, up at 90 and
// 180, rows along y at 90 and 270.
pub fn style_of(rotation: u8, from: Point, transparent: bool) -> CellStyle
    ensures { result ≡ style_of rotation from transparent }
{
    let heading = Heading {
        left: rotation > 1,
        up: (rotation == 1) | (rotation == 2),
    };
    let course = Course { from, heading };
    CellStyle {
        course,
        sideways: (rotation == 1) | (rotation > 2),
        transparent,
    }
}

// Rows of cells along x, one below or above the other: a word each, the first cell in bit 15; how many cells a row
// has, and how many rows there are.
#[derive(Clone, Copy)]
pub struct Grid {
    pub cells: [u16; 16],
    pub width: usize,
    pub height: usize,
}

// A row of a grid: its number, how many cells it has, and these.
#[derive(Clone, Copy)]
pub struct CellRow {
    pub number: usize,
    pub width: usize,
    pub cells: u16,
}

// ---- The grid of a character

// The cells of a descriptor's row, the leftmost in bit 15.
fn cells_of(bits: u16, width: usize) -> u16
    requires { width ≤ most_columns }
    ensures { CellsOf bits width result }
{
    (((bits as u32) << (16 - width)) % 65536) as u16
}

// The rows of the character whose descriptor stands at an address.
fn stored_cells(store: &[u8], at: usize, width: usize, height: usize) -> [u16; 16]
    requires { (width ≤ most_columns) × (height ≤ most_rows) × (at + 2 + 2 * height ≤ length store.now) }
    ensures { StoredCells store.now at width height result }
{
    let mut cells = [0; 16];
    for number in 0..height {
        let bits = words::word(store, at + 2 + 2 * number);
        cells[number] = cells_of(bits, width);
    }
    cells
}

// The grid of the character whose descriptor stands at an address and begins with the word `head`: rows and columns
// are exchanged where rows go along y.
pub fn grid_of(store: &[u8], sideways: bool, at: usize, head: u16) -> Grid
    requires { at + 2 + 2 * height_of head ≤ length store.now }
    ensures { GridOf store.now sideways at head result }
{
    let width = width_of(head);
    let height = height_of(head);
    let cells = stored_cells(store, at, width, height);
    if sideways {
        return Grid {
            cells: grids::transposed(cells),
            width: height,
            height: width,
        };
    }
    Grid {
        cells,
        width,
        height,
    }
}

// ---- A grid, dot by dot

// A row: hits, and one more for each visible cell.
fn row_by_dots(
    screen: &mut [u8],
    store: &mut [u8],
    t: Target,
    style: CellStyle,
    row: CellRow,
    hits: usize,
) -> usize
    requires { Ready t (length screen.old) (length store.old) × RowFits row × (hits + most_columns < count_end) }
    ensures { Painted t (row_dots t.pen style row)
        (canvas screen.old store.old hits) (canvas screen.new store.new result) }
{
    let mut seen = hits;
    for i in 0..row.width {
        let on = words::bit_of(row.cells, 15 - i);
        let source = canvas::pen_source(t.pen, style.transparent, on);
        let o = Offset {
            x: i,
            y: row.number,
        };
        seen = canvas::draw_dot(screen, store, t, style.course, o, source, seen);
    }
    seen
}

// All rows.
pub fn grid_by_dots(
    screen: &mut [u8],
    store: &mut [u8],
    t: Target,
    style: CellStyle,
    g: Grid,
    hits: usize,
) -> usize
    requires { Ready t (length screen.old) (length store.old) × GridFits g × (hits + most_cells < count_end) }
    ensures { Painted t (grid_dots t.pen style g)
        (canvas screen.old store.old hits) (canvas screen.new store.new result) }
{
    let mut seen = hits;
    for number in 0..g.height {
        let row = CellRow {
            number,
            width: g.width,
            cells: g.cells[number],
        };
        seen = row_by_dots(screen, store, t, style, row, seen);
    }
    seen
}
