// Set-up's checks on geometry, table and the lengths of the two buffers: refusals 6 to 11.
ghost use Rattle.std.specs.Prelude.{◌≡◌, ◌≤◌};
ghost use Rattle.model.specs.Numbers.{refused_by};
ghost use Rattle.model.specs.Ranges.{out_of};
ghost use Rattle.model.specs.Setup.{geometry_bad, screen_bytes, rectangle_bad, store_bad, share_pixel, share_byte, checks};
ghost use Rattle.refusals.specs.Sizes.{Sized, some_row, Found, table_checks};

use bitmaps::{is_depth, row_words, share_span};
use model::{Console, Geometry, Refusal, Row};

// The longest store.
const MOST_STORE: u32 = 2097152;

// Whether a number is below lo or above hi.
pub fn out_of(lo: u32, hi: u32, n: u32) -> bool
    ensures { result ≡ out_of lo hi n }
{
    (n < lo) | (hi < n)
}

// Whether the geometry or the number of rows is out of range: refusal 6.
fn geometry_bad(g: Geometry, count: u32) -> bool
    ensures { result ≡ geometry_bad g count }
{
    out_of(1, 4096, g.width)
        | (out_of(1, 4096, g.height) | (!is_depth(g.depth) | out_of(1, 8, count)))
}

// The bytes of the screen's rows.
fn screen_bytes(g: Geometry) -> usize
    requires { (g.width ≤ 4096) × (g.height ≤ 4096) × (g.depth ≤ 8) }
    ensures { result ≡ screen_bytes g }
{
    let words = row_words(g.width as usize, g.depth as usize);
    2 * (g.height as usize * words)
}

// Whether a row's rectangle is empty or beyond the screen: refusal 8.
fn rectangle_bad(g: Geometry, r: Row) -> bool
    ensures { result ≡ rectangle_bad g r }
{
    let right = r.left as usize + r.width as usize;
    let bottom = r.top as usize + r.height as usize;
    (r.width == 0)
        | ((r.height == 0) | (((g.width as usize) < right) | ((g.height as usize) < bottom)))
}

// Whether a row's store is odd, too long or beyond a buffer of so many bytes: refusal 9.
fn store_bad(stores: usize, r: Row) -> bool
    ensures { result ≡ store_bad stores r }
{
    let end = r.start as usize + r.len as usize;
    (r.len % 2 == 1) | ((r.len > MOST_STORE) | (stores < end))
}

// Whether two rectangles share a pixel: refusal 10.
fn share_pixel(a: Row, b: Row) -> bool
    ensures { result ≡ share_pixel a b }
{
    share_span(
        a.left as usize,
        a.width as usize,
        b.left as usize,
        b.width as usize,
    ) & share_span(
        a.top as usize,
        a.height as usize,
        b.top as usize,
        b.height as usize,
    )
}

// Whether two stores share a byte: refusal 11.
fn share_byte(a: Row, b: Row) -> bool
    ensures { result ≡ share_byte a b }
{
    share_span(
        a.start as usize,
        a.len as usize,
        b.start as usize,
        b.len as usize,
    )
}

// Whether a row shares a pixel, or a byte of its store, with one of the first rows.
#[derive(Clone, Copy)]
pub struct Sharing {
    pub pixel: bool,
    pub byte: bool,
}

// Which of the refusals 8 to 11 the first rows give.
#[derive(Clone, Copy)]
pub struct Findings {
    pub rectangle: bool,
    pub store: bool,
    pub pixel: bool,
    pub byte: bool,
}

// Whether a row shares a pixel, or a byte of its store, with one of the first n rows.
fn shared(rows: [Row; 8], n: usize, r: Row) -> Sharing
    requires { n ≤ 8 }
    ensures { (result.pixel ≡ some_row n (λ s. share_pixel s r) rows)
        × (result.byte ≡ some_row n (λ s. share_byte s r) rows) }
{
    let mut pixel = false;
    let mut byte = false;
    for i in 0..n {
        let s = rows[i];
        pixel = share_pixel(s, r) | pixel;
        byte = share_byte(s, r) | byte;
    }
    Sharing { pixel, byte }
}

// Which of the refusals 8 to 11 some row, or some two rows, of the first n give.
fn found(stores: usize, g: Geometry, rows: [Row; 8], n: usize) -> Findings
    requires { n ≤ 8 }
    ensures { Found stores g rows n result }
{
    let mut rectangle = false;
    let mut store = false;
    let mut pixel = false;
    let mut byte = false;
    for j in 0..n {
        let r = rows[j];
        let s = shared(rows, j, r);
        rectangle = rectangle_bad(g, r) | rectangle;
        store = store_bad(stores, r) | store;
        pixel = s.pixel | pixel;
        byte = s.byte | byte;
    }
    Findings {
        rectangle,
        store,
        pixel,
        byte,
    }
}

// The first of the refusals 7 to 11 that applies, once 6 does not.
#[tactic(auto, unfolding(crate::specs::Sizes::table_checks))]
fn check_table(
    screen: usize,
    stores: usize,
    g: Geometry,
    rows: [Row; 8],
    n: usize,
) -> Result<(), Refusal>
    requires { Sized g n }
    ensures { refused_by result ≡ table_checks g n rows screen stores }
{
    if screen < screen_bytes(g) {
        return Err(Refusal::Screen);
    }
    let f = found(stores, g, rows, n);
    if f.rectangle {
        return Err(Refusal::Rectangle);
    }
    if f.store {
        return Err(Refusal::Store);
    }
    if f.pixel {
        return Err(Refusal::Overlap);
    }
    if f.byte {
        return Err(Refusal::Shared);
    }
    Ok(())
}

// The first of set-up's refusals that applies, by the lengths of the two buffers.
pub fn check_setup(screen: usize, stores: usize, c: Console) -> Result<(), Refusal>
    ensures { refused_by result ≡ checks c.geometry c.count c.rows screen stores }
{
    let g = c.geometry;
    let rows = c.rows;
    if geometry_bad(g, c.count) {
        return Err(Refusal::Geometry);
    }
    check_table(screen, stores, g, rows, c.count as usize)
}
