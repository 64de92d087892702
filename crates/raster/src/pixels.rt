// One pixel read, one pixel blended: the same code for all four depths.
ghost use Rattle.std.specs.Prelude.{◌≡◌, ℕ, ◌+◌, ◌-◌, ◌*◌, ◌<◌, ◌≤◌};
ghost use Rattle.model.specs.Words.{bit};
ghost use Rattle.model.specs.Bitmaps.{pixels};
ghost use Rattle.model.specs.Pixels.{source_bit, change};
ghost use Rattle.raster.specs.Operations.{truth_of};
ghost use Rattle.raster.specs.Place.{Drawable};
ghost use Rattle.raster.specs.Pixels.{overlaid, blending};

use crate::operations::{Truth, field_mask, field_of, half_of, mux, operate};
use crate::place::{PixelPlace, place_of};
use model::{Pen, Source, Surface};

// The value of pixel (x,y).
#[tactic(auto, using(crate::proofs::BlendLaws::pixels_at))]
pub fn pixel_at(buffer: &[u8], s: Surface, x: usize, y: usize) -> u8
    requires { Drawable s buffer.now x y }
    ensures { result ≡ pixels s buffer.now x y }
{
    let place = place_of(s, x, y);
    let at = place.at;
    field_of(buffer[at], place.shift, s.bits)
}

// A byte with the pixel at a place of it blended: under the half of the mask that lies over the byte, with a
// source byte whose bits stand where the pixel's do.
#[tactic(auto, using(crate::proofs::ByteLaws::overlaid_is))]
fn blended(old: u8, place: PixelPlace, bits: usize, mask: u16, truth: Truth, source: u8) -> u8
    requires { (place.shift + bits ≤ 8) × (place.half < 2) }
    ensures { result ≡ overlaid old place bits mask truth source }
{
    let under = half_of(mask, place.half) & field_mask(place.shift, bits);
    mux(under, old, operate(truth, source, old))
}

// The byte that has, over a pixel's bits, those of what the pixel is drawn with: the half of a colour word
// that lies over the pixel's byte, or a copied value moved to the pixel's bits.
#[tactic(auto, using(crate::proofs::BlendLaws::sources))]
fn source_byte(source: Source, place: PixelPlace) -> u8
    requires { (place.shift < 8) × (place.half < 2) }
    ensures { (i : ℕ) → place.shift ≤ i → i < 8
        → bit result i ≡ source_bit source (8 * place.half + place.shift) (i - place.shift) }
{
    match source {
        Source::Nothing => 0,
        Source::Colour(word) => half_of(word, place.half),
        Source::Copied(value) => value << place.shift,
    }
}

// Pixel (x,y) blended with a source. The caller looks the operation's truth table up, once for many pixels.
// No other bit of the buffer changes.
#[tactic(auto, using(crate::proofs::BlendLaws::blending_at))]
pub fn blend(
    buffer: &mut [u8],
    s: Surface,
    pen: Pen,
    truth: Truth,
    x: usize,
    y: usize,
    source: Source,
)
    requires { Drawable s buffer.old x y × (truth ≡ truth_of pen.op) }
    ensures { buffer.new ≡ change s (blending s pen source x y) buffer.old }
{
    let place = place_of(s, x, y);
    let at = place.at;
    let byte = source_byte(source, place);
    buffer[at] = blended(buffer[at], place, s.bits, pen.mask, truth, byte);
}
