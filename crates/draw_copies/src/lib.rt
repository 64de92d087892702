// BIT_BLT and BIT_BLT_M: a block of pixels copied in place, as though all were read first. It is cropped to
// the clip once, and then goes row by row, each by whole words, in the order in which no row is drawn on before it is
// read.
#![tactic(auto)]

ghost use Rattle.std.specs.Prelude.{◌≡◌, ◌+◌, ◌<◌, ◌≤◌, false, length, pos, ◌+ℤ◌, if◌then◌else◌};
ghost use Rattle.model.specs.Bitmaps.{pixels};
ghost use Rattle.model.specs.Coordinates.{coord, moved};
ghost use Rattle.model.specs.Copies.{rectangle_of, copy, block_bad};
ghost use Rattle.canvas.specs.Canvas.{canvas, count_end, Drew};
ghost use Rattle.canvas.specs.Targets.{Ready};
ghost use Rattle.draw_copies.specs.Steps.{reversed_if};
ghost use Rattle.draw_copies.specs.Transfers.{Cropped, Patched, moved_row, moved_all};
ghost use Rattle.draw_copies.specs.Transfers.{Movable, Copyable, CopySource};
ghost use Rattle.draw_copies.specs.Rows.{Starts, start_of, RowStarts, row_of, BitsFit, BitsCopied};

use bitmaps::Area;
use canvas::{Drawn, Target};
use model::{Block, Clip, Point, Surface};
use row_copies::{Operator, RowCopy};

// Of numbered columns or rows those that lie in the clip: the first of them, how many, and where the first
// lies.
#[derive(Clone, Copy)]
pub struct Extent {
    pub skip: usize,
    pub count: usize,
    pub at: usize,
}

// A rectangle all of whose pixels lie in the clip: from (sx,sy) of the source on, to (x,y) of the target.
#[derive(Clone, Copy)]
pub struct Patch {
    pub sx: usize,
    pub sy: usize,
    pub x: usize,
    pub y: usize,
    pub wide: usize,
    pub high: usize,
}

// A copy that is cropped to the clip: a patch of a source, whether its rows are taken from the bottom up, and what
// the pen makes of source and old bits.
#[derive(Clone, Copy)]
pub struct Transfer {
    pub source: Area,
    pub patch: Patch,
    pub up: bool,
    pub operator: Operator,
}

// Which of n columns or rows, the first at a coordinate, lie from lo to hi. The edges are counted from a number
// that is 65,536 more than the coordinate.
fn crop(at: u16, n: usize, lo: u16, hi: u16) -> Extent
    requires { n ≤ 65536 }
    ensures { Cropped lo hi (coord at) n result }
{
    let from = coordinates::biased(at, false, 0);
    let e = coordinates::edges_between(from, false, n, lo, hi);
    if e.first < e.second {
        return Extent {
            skip: e.first,
            count: e.second - e.first,
            at: from + e.first - 65536,
        };
    }
    Extent {
        skip: e.first,
        count: 0,
        at: 0,
    }
}

// The patch of a block that is copied to a position: what of it lies in the clip.
fn patch_of(clip: Clip, from: Point, b: Block) -> Patch
    ensures { Patched clip from b result }
{
    let across = crop(from.x, b.dx as usize + 1, clip.xmin, clip.xmax);
    let down = crop(from.y, b.dy as usize + 1, clip.ymin, clip.ymax);
    Patch {
        sx: b.x as usize + across.skip,
        sy: b.y as usize + down.skip,
        x: across.at,
        y: down.at,
        wide: across.count,
        high: down.count,
    }
}

// Where a pixel begins: the first byte of its row, and its first bit from the left of the row.
#[derive(Clone, Copy)]
pub struct Start {
    pub row: usize,
    pub bit: usize,
}

// Where pixel (x,y) of a surface begins.
fn start_of(u: Surface, x: usize, y: usize) -> Start
    requires { Starts u x y }
    ensures { result ≡ start_of u x y }
{
    Start {
        row: u.base + 2 * (u.words * (u.top + y)),
        bit: (u.left + x) * u.bits,
    }
}

// Where the bits of row j of a transfer come from and go to.
fn row_copy_of(u: Surface, m: Transfer, j: usize) -> RowCopy
    requires { RowStarts u m j }
    ensures { result ≡ row_of u m j }
{
    let p = m.patch;
    let area = m.source;
    let target = start_of(u, p.x, p.y + j);
    let source = start_of(area.surface, p.sx, p.sy + j);
    RowCopy {
        row: target.row,
        to: target.bit,
        base: source.row,
        from: source.bit,
        count: p.wide * u.bits,
    }
}

// Bits of a row copied, in the screen or in the store, from one of the two.
fn copy_bits(
    screen: &mut [u8],
    store: &mut [u8],
    onto: bool,
    from: bool,
    c: RowCopy,
    operator: Operator,
)
    requires { BitsFit onto from c operator screen.old store.old }
    ensures { BitsCopied onto from c operator screen.old store.old
        screen.new store.new }
{
    match (onto, from) {
        (true, true) => row_copies::slide_row(screen, c, operator),
        (true, false) => row_copies::copy_row(screen, store, c, operator),
        (false, true) => row_copies::copy_row(store, screen, c, operator),
        (false, false) => row_copies::slide_row(store, c, operator),
    }
}

// k, or the k-th from the other end of n.
fn reversed_if(back: bool, n: usize, k: usize) -> usize
    requires { k < n }
    ensures { result ≡ reversed_if back n k }
{
    if back { n - 1 - k } else { k }
}

// Row j of a transfer, as though all of it were read first: hits, and one more for each of its pixels, which are all
// visible.
fn move_row(
    screen: &mut [u8],
    store: &mut [u8],
    t: Target,
    m: Transfer,
    j: usize,
    hits: usize,
) -> usize
    requires { Movable t m (length screen.old) (length store.old) × (0 < m.patch.wide)
        × (j < m.patch.high) × (hits + m.patch.wide < count_end) }
    ensures { canvas screen.new store.new result
        ≡ moved_row t m j (canvas screen.old store.old hits) }
{
    let p = m.patch;
    let seen = hits + p.wide;
    if t.picking {
        return seen;
    }
    let area = t.area;
    let source = m.source;
    let c = row_copy_of(area.surface, m, j);
    copy_bits(screen, store, area.onscreen, source.onscreen, c, m.operator);
    seen
}

// The rows of a transfer that has columns, in their order: how many of its pixels are visible. Not inlined: among the
// numbers of `copy_block` a row of 31 pixels takes some 7 percent longer.
#[inline(never)]
fn move_rows(screen: &mut [u8], store: &mut [u8], t: Target, m: Transfer) -> usize
    requires { Movable t m (length screen.old) (length store.old) × (0 < m.patch.wide) }
    ensures { canvas screen.new store.new result
        ≡ moved_all t m (canvas screen.old store.old 0) }
{
    let p = m.patch;
    let mut seen = 0;
    for k in 0..p.high {
        let j = reversed_if(m.up, p.high, k);
        seen = move_row(screen, store, t, m, j, seen);
    }
    seen
}

// All rows of a transfer, which may have no column or row in the clip: how many of its pixels are visible. Apart from
// the rows, so that a copy all outside the clip ends before their numbers are worked out: else it takes a third longer.
#[tactic(auto, using(crate::proofs::LoopLaws::moved_none, crate::proofs::LoopLaws::moved_no_row))]
fn move_all(screen: &mut [u8], store: &mut [u8], t: Target, m: Transfer) -> usize
    requires { Movable t m (length screen.old) (length store.old) }
    ensures { canvas screen.new store.new result
        ≡ moved_all t m (canvas screen.old store.old 0) }
{
    let p = m.patch;
    if p.wide == 0 || p.high == 0 {
        return 0;
    }
    move_rows(screen, store, t, m)
}

// The position after a copy: on by its dx and the spacing, wrapped at 16 bits.
fn copied_to(from: Point, dx: u16, spacing: u16) -> Point
    ensures { result ≡ moved from (coord dx +ℤ coord spacing) (pos 0) }
{
    let across = std::num::wrapping_add_u16(dx, spacing);
    let x = std::num::wrapping_add_u16(from.x, across);
    Point { x, y: from.y }
}

// A block of a source copied to a position of the active bitmap. In place; where the copy goes down, its rows are taken
// from the bottom up, so that within one bitmap each is read before it is drawn on. Inlined: else a copy all outside
// the clip takes some 13 percent longer.
#[inline(always)]
fn copy_block(
    screen: &mut [u8],
    store: &mut [u8],
    t: Target,
    source: Area,
    from: Point,
    spacing: u16,
    b: Block,
) -> Drawn
    requires { Ready t (length screen.old) (length store.old)
        × CopySource t.area source b (length screen.old) (length store.old) }
    ensures { Drew t
        (copy (pixels source.surface (if source.onscreen then screen.old else store.old))
        spacing from (rectangle_of b))
        (canvas screen.old store.old 0) result screen.new store.new }
{
    let patch = patch_of(t.clip, from, b);
    let operator = row_copies::operator_of(t.pen, t.truth);
    let m = Transfer {
        source,
        patch,
        up: patch.sy < patch.y,
        operator,
    };
    let hits = move_all(screen, store, t, m);
    let position = copied_to(from, b.dx, spacing);
    Drawn {
        position,
        trap: false,
        hits,
    }
}

// BIT_BLT: a block of the active bitmap copied to a position of it.
pub fn bit_blt(
    screen: &mut [u8],
    store: &mut [u8],
    t: Target,
    from: Point,
    spacing: u16,
    b: Block,
) -> Drawn
    requires { Ready t (length screen.old) (length store.old)
        × (block_bad t.area.surface (rectangle_of b) ≡ false) }
    ensures { Drew t
        (copy (pixels t.area.surface (if t.area.onscreen then screen.old else store.old))
        spacing from (rectangle_of b))
        (canvas screen.old store.old 0) result screen.new store.new }
{
    copy_block(screen, store, t, t.area, from, spacing, b)
}

// BIT_BLT_M: a block of another bitmap, which shares no byte with the active one, copied to a position.
pub fn bit_blt_m(
    screen: &mut [u8],
    store: &mut [u8],
    t: Target,
    source: Area,
    from: Point,
    spacing: u16,
    b: Block,
) -> Drawn
    requires { Ready t (length screen.old) (length store.old)
        × Copyable t.area source b (length screen.old) (length store.old) }
    ensures { Drew t
        (copy (pixels source.surface (if source.onscreen then screen.old else store.old))
        spacing from (rectangle_of b))
        (canvas screen.old store.old 0) result screen.new store.new }
{
    copy_block(screen, store, t, source, from, spacing, b)
}
