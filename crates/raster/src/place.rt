// Where a pixel lies: rows of 16-bit words, low byte first, the first pixel in a word's high bits.
ghost use Rattle.raster.specs.Place.{PlaceFits, Lies};

use model::Surface;

// The byte of the buffer that holds a pixel, the pixel's lowest bit in that byte, and which half of its word
// that byte is: 0 low, 1 high. The half is a number, since the pixel begins at bit 8 × half + shift of its word.
#[derive(Clone, Copy)]
pub struct PixelPlace {
    pub at: usize,
    pub shift: usize,
    pub half: usize,
}

// Where pixel (x,y) of a surface lies.
#[tactic(auto, using(crate::proofs::PlaceLaws::place_lies, crate::proofs::PlaceLaws::shift_in_byte))]
pub fn place_of(s: Surface, x: usize, y: usize) -> PixelPlace
    requires { PlaceFits s x y }
    ensures { Lies s x y result }
{
    let bits = (s.left + x) * s.bits;
    let byte = (bits / 8) ^ 1;
    PixelPlace {
        at: s.base + 2 * (s.words * (s.top + y)) + byte,
        shift: 8 - s.bits - bits % 8,
        half: byte % 2,
    }
}
