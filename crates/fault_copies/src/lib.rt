// The checks of BIT_BLT and BIT_BLT_M: a block in its bitmap, and bytes in common with the active bitmap.
#![tactic(auto)]

ghost use Rattle.std.specs.Prelude.{◌≡◌, false, ◌+◌, ◌*◌, ◌^◌, ◌<◌, ◌≤◌};
ghost use Rattle.model.specs.Bitmaps.{word_of, touches};
ghost use Rattle.model.specs.Coordinates.{coord, index};
ghost use Rattle.model.specs.Copies.{rectangle_of, block_bad, block_touches, sharing};
ghost use Rattle.bitmaps.specs.Areas.{Readable};

use coordinates::is_negative;
use model::{Bitmap, Block, Surface};

// The number that a pattern stands for, or 0 for a negative one.
fn index_of(d: u16) -> usize
    ensures { (result ≡ index (coord d)) × (result < 32768) }
{
    if d < 32768 {
        return d as usize;
    }
    0
}

// Whether a copy's dx or dy is negative, or its source outside its bitmap, whose surface is s.
pub fn block_bad(s: Surface, b: Block) -> bool
    ensures { result ≡ block_bad s (rectangle_of b) }
{
    let right = index_of(b.x) + index_of(b.dx);
    let bottom = index_of(b.y) + index_of(b.dy);
    is_negative(b.dx)
        | (is_negative(b.dy)
            | (is_negative(b.x) | (is_negative(b.y) | ((s.width <= right) | (s.height <= bottom)))))
}

// The word of a row in which a column lies.
fn word_of(bits: usize, c: usize) -> usize
    requires { (bits ≤ 8) × (c < 65536) }
    ensures { (result ≡ word_of bits c) × (result < 32768) }
{
    c * bits / 16
}

// Whether bytes of a row of a surface touch the active bitmap: so many from its word `first` on.
fn row_touches(active: Bitmap, s: Surface, row: usize, first: usize, size: usize) -> bool
    requires { (s.base + 2 * (row * s.words + first) < 2 ^ 32) × (size < 2 ^ 32) }
    ensures { result ≡ touches active (s.base + 2 * (row * s.words + first)) size }
{
    bitmaps::touches(active, s.base + 2 * (row * s.words + first), size)
}

// Whether some row of a block of the store touches the active bitmap: the words that hold its pixels.
fn rows_touch(active: Bitmap, s: Surface, b: Block) -> bool
    requires { Readable s (2 ^ 32) × (block_bad s (rectangle_of b) ≡ false) }
    ensures { result ≡ block_touches active s (rectangle_of b) }
{
    let x = b.x as usize;
    let y = b.y as usize;
    let dy = b.dy as usize;
    let first = word_of(s.bits, x);
    let last = word_of(s.bits, x + b.dx as usize);
    let size = 2 * (last + 1 - first);
    let mut found = false;
    for j in 0..dy + 1 {
        found = row_touches(active, s, y + j, first, size) | found;
    }
    found
}

// Whether a source shares a byte with the active bitmap: pane to pane does, pane and store don't, and of two
// bitmaps of the store the rows decide. The block lies in the source, whose surface is s.
pub fn sharing(active: Bitmap, source: Bitmap, s: Surface, b: Block) -> bool
    requires { Readable s (2 ^ 32) × (block_bad s (rectangle_of b) ≡ false) }
    ensures { result ≡ sharing active source s (rectangle_of b) }
{
    match source {
        Bitmap::Absent => false,
        Bitmap::Pane { .. } => bitmaps::is_pane(active),
        Bitmap::Store { .. } => rows_touch(active, s, b),
    }
}
