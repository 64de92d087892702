// Bitmaps: where their pixels lie, DEF_BITMAP's rule, clips, the scissor, and bytes of the store that touch a bitmap.
// Refusal 12, the commands' faults and the drawing commands look at these.
#![tactic(auto)]

pub mod areas; // areas.rt: where a bitmap's pixels lie
pub mod scissors; // scissors.rt: where drawing can land on the screen

ghost use Rattle.std.specs.Prelude.{◌≡◌, ◌+◌, ◌^◌, ◌≤◌, ◌<◌, ltb};
ghost use Rattle.model.specs.Bitmaps.{is_depth, row_words, bitmap_of, bitmap_bytes, share_span, touches};
ghost use Rattle.model.specs.Bitmaps.{pane_bitmap_bad, store_bitmap_bad, rule_broken};
ghost use Rattle.model.specs.Faults.{no_bitmap, clip_beyond, clip_outside, bytes_bad, array_bad};

pub use areas::{Area, area_of, is_pane, landing_area, source_of, surface_of};
use model::{Bitmap, Clip, Frame, Row};
pub use scissors::scissor_of;

// The address that means the pane.
pub const PANE_ADDRESS: u32 = 0x200000;

// Whether so many bits per pixel are a depth: 1, 2, 4 or 8.
pub fn is_depth(bits: u32) -> bool
    ensures { result ≡ is_depth bits }
{
    matches!(bits, 1 | 2 | 4 | 8)
}

// The words of a row of so many pixels.
pub fn row_words(width: usize, bits: usize) -> usize
    requires { (width ≤ 65536) × (bits ≤ 65535) }
    ensures { result ≡ row_words width bits }
{
    (width * bits + 15) / 16
}

// The bytes of a store bitmap's rows.
pub fn bitmap_bytes(xmax: u16, ymax: u16, bits: u16) -> usize
    ensures { (result ≡ bitmap_bytes xmax ymax bits) × (result < 2 ^ 45) }
{
    let words = row_words(xmax as usize + 1, bits as usize);
    2 * (words * (ymax as usize + 1))
}

// The bitmap that an address and DEF_BITMAP's other values name.
pub fn bitmap_of(address: u32, xmax: u16, ymax: u16, bits: u16) -> Bitmap
    ensures { result ≡ bitmap_of address xmax ymax bits }
{
    if address == PANE_ADDRESS {
        return Bitmap::Pane { xmax, ymax, bits };
    }
    Bitmap::Store {
        address,
        xmax,
        ymax,
        bits,
    }
}

// Whether there is no bitmap.
pub fn no_bitmap(b: Bitmap) -> bool
    ensures { result ≡ no_bitmap b }
{
    matches!(b, Bitmap::Absent)
}

// Whether bytes from an address on pass the end of a store of so many bytes.
fn passes_end(len: u32, at: usize, size: usize) -> bool
    requires { (at < 2 ^ 32) × (size < 2 ^ 48) }
    ensures { result ≡ ltb len (at + size) }
{
    (len as usize) < at + size
}

// Whether these values differ from the pane's width, height and depth.
fn pane_bitmap_bad(f: Frame, xmax: u16, ymax: u16, bits: u16) -> bool
    ensures { result ≡ pane_bitmap_bad f.geometry f.row xmax ymax bits }
{
    let g = f.geometry;
    let r = f.row;
    !((xmax as u32 + 1 == r.width) & ((ymax as u32 + 1 == r.height) & (bits as u32 == g.depth)))
}

// Whether a bitmap in a store of so many bytes breaks DEF_BITMAP's rule.
fn store_bitmap_bad(len: u32, address: u32, xmax: u16, ymax: u16, bits: u16) -> bool
    ensures { result ≡ store_bitmap_bad len address xmax ymax bits }
{
    let size = bitmap_bytes(xmax, ymax, bits);
    (address % 2 == 1)
        | ((xmax > 0x7FFF)
            | ((ymax > 0x7FFF)
                | (!is_depth(bits as u32) | passes_end(len, address as usize, size))))
}

// Whether a bitmap breaks DEF_BITMAP's rule for a pane seen through this frame; no bitmap breaks none.
pub fn rule_broken(f: Frame, b: Bitmap) -> bool
    ensures { result ≡ rule_broken f.geometry f.row b }
{
    match b {
        Bitmap::Absent => false,
        Bitmap::Pane { xmax, ymax, bits } => pane_bitmap_bad(f, xmax, ymax, bits),
        Bitmap::Store {
            address,
            xmax,
            ymax,
            bits,
        } => store_bitmap_bad(f.row.len, address, xmax, ymax, bits),
    }
}

// Whether some value of a clip is above these.
fn clip_beyond(xmax: u16, ymax: u16, c: Clip) -> bool
    ensures { result ≡ clip_beyond xmax ymax c }
{
    (xmax < c.xmin) | ((ymax < c.ymin) | ((xmax < c.xmax) | (ymax < c.ymax)))
}

// Whether some value of a clip is outside a bitmap, or not 0 without one.
pub fn clip_outside(b: Bitmap, c: Clip) -> bool
    ensures { result ≡ clip_outside b c }
{
    match b {
        Bitmap::Absent => clip_beyond(0, 0, c),
        Bitmap::Pane {
            xmax,
            ymax,
            bits: _,
        } => clip_beyond(xmax, ymax, c),
        Bitmap::Store {
            address: _,
            xmax,
            ymax,
            bits: _,
        } => clip_beyond(xmax, ymax, c),
    }
}

// Whether the numbers from a on, m of them, and from b on, n of them, have one in common.
pub fn share_span(a: usize, m: usize, b: usize, n: usize) -> bool
    requires { (a + m < 2 ^ 48) × (b + n < 2 ^ 48) }
    ensures { result ≡ share_span a m b n }
{
    (m > 0) & ((n > 0) & ((a < b + n) & (b < a + m)))
}

// Whether bytes of the store touch a bitmap; none touch the pane.
pub fn touches(b: Bitmap, at: usize, size: usize) -> bool
    requires { (at < 2 ^ 32) × (size < 2 ^ 32) }
    ensures { result ≡ touches b at size }
{
    match b {
        Bitmap::Absent => false,
        Bitmap::Pane { .. } => false,
        Bitmap::Store {
            address,
            xmax,
            ymax,
            bits,
        } => share_span(at, size, address as usize, bitmap_bytes(xmax, ymax, bits)),
    }
}

// Whether bytes of the store are outside it or touch the active bitmap; no bytes are neither.
pub fn bytes_bad(r: Row, b: Bitmap, at: usize, size: usize) -> bool
    requires { (at < 2 ^ 32) × (size < 2 ^ 32) }
    ensures { result ≡ bytes_bad r b at size }
{
    !(size == 0) & (passes_end(r.len, at, size) | touches(b, at, size))
}

// Whether an array in the store is at an odd address, outside the store or touches the active bitmap.
pub fn array_bad(r: Row, b: Bitmap, at: usize, size: usize) -> bool
    requires { (at < 2 ^ 32) × (size < 2 ^ 32) }
    ensures { result ≡ array_bad r b at size }
{
    (at % 2 == 1) | bytes_bad(r, b, at, size)
}
