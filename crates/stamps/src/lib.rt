// Pixels one by one, without a sum for each: what a pen makes of the byte that holds a pixel is worked out once a
// command, for each place that a pixel has in its word, and a pixel is then one byte mixed.
#![tactic(auto)]

ghost use Rattle.std.specs.Prelude.{◌≡◌, ◌+◌, ◌≤◌, ◌<◌, length};
ghost use Rattle.model.specs.Bitmaps.{Depth};
ghost use Rattle.raster.specs.Operations.{truth_of};
ghost use Rattle.strips.specs.Strips.{RotatedLeft};
ghost use Rattle.stamps.specs.Stamps.{CoverOf, Covered, Pressed, StampsOf, stamp_byte, stamped};

use model::Pen;
use raster::Truth;
use raster::operations::half_of;
use strips::inks::{Ink, back_of, fore_of};
use strips::patterns::rotate_left;
use strips::weaves::{mux, put};

// Of eight bytes, in byte k the bits of the pixel that begins at bit k of its byte, from the left; none where no pixel
// begins.
#[tactic(auto, using(crate::proofs::StampLaws::covers))]
fn cover_of(bits: usize) -> u64
    requires { Depth bits }
    ensures { CoverOf bits result }
{
    match bits {
        1 => 0x0102040810204080,
        2 => 0x0003000C003000C0,
        4 => 0x0000000F000000F0,
        _ => 0xFF,
    }
}

// Eight bytes: those of a byte where the cover is 1, else those of `rest`.
#[tactic(auto, using(crate::proofs::StampLaws::covered_is))]
fn covered(cover: u64, rest: u64, byte: u8) -> u64
    ensures { Covered cover rest byte result }
{
    mux(cover, rest, (byte as u64) * 0x0101010101010101)
}

// The stamps of an ink put in their places: what is kept from `at` on, and what is flipped 32 bytes further.
fn press(stamps: &mut [u8], ink: Ink, cover: u64, at: usize)
    requires { at + 48 ≤ length stamps.old }
    ensures { Pressed ink cover at stamps.old stamps.new }
{
    put(stamps, at, covered(cover, u64::MAX, half_of(ink.keep, 1)));
    put(
        stamps,
        at + 8,
        covered(cover, u64::MAX, half_of(ink.keep, 0)),
    );
    put(stamps, at + 32, covered(cover, 0, half_of(ink.flip, 1)));
    put(stamps, at + 40, covered(cover, 0, half_of(ink.flip, 0)));
}

// The stamps of a pen: what of a byte is kept, under a pattern's 0 and then under its 1, and what is flipped.
pub fn stamps_of(pen: Pen, truth: Truth, bits: usize) -> [u8; 64]
    requires { (truth ≡ truth_of pen.op) × Depth bits }
    ensures { StampsOf pen bits result }
{
    let fore = fore_of(pen, truth);
    let back = back_of(pen, truth);
    let cover = cover_of(bits);
    let mut stamps = [0u8; 64];
    press(&mut stamps, back, cover, 0);
    press(&mut stamps, fore, cover, 16);
    stamps
}

// The pixel at bit o, from the left, of the row that begins at a byte: stamped under a pattern's 0 or 1. That is a
// number, since the stamps of 1 begin sixteen bytes on.
#[tactic(auto, unfolding(crate::specs::Stamps::stamped))]
pub fn stamp(buffer: &mut [u8], stamps: &[u8], row: usize, o: usize, on: usize)
    requires { (length stamps.now ≡ 64) × (on < 2) × (stamp_byte row o < length buffer.old) }
    ensures { buffer.new ≡ stamped stamps.now row o on buffer.old }
{
    let at = row + ((o / 8) ^ 1);
    let t = 16 * on + o % 16;
    buffer[at] = (buffer[at] & stamps[t]) ^ stamps[t + 32];
}

// A pattern one bit further.
pub fn turned(pattern: u16) -> u16
    ensures { RotatedLeft pattern 1 result }
{
    rotate_left(pattern, 1)
}
