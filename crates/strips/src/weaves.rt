// The sixteen strips of a pattern: strip t begins at a pixel with pattern index t. Each is sixteen bytes to keep and
// sixteen to flip, after one another. Behind them stand how many pixels a word has, and 1 if no old bit is kept.
ghost use Rattle.std.specs.Prelude.{◌≡◌, ◌+◌, ◌*◌, ◌≤◌, ◌<◌, ◌↔◌, length, IsTrue};
ghost use Rattle.model.specs.Bitmaps.{Depth};
ghost use Rattle.raster.specs.Operations.{truth_of};
ghost use Rattle.strips.specs.Strips.{Fourfold, Muxed, Under, Put, Wove, Woven};

use crate::inks::{Ink, back_of, fore_of};
use crate::patterns::{over_first, over_last, rotate_left};
use model::Pen;
use raster::Truth;

// The byte of the table that says how many pixels a word has.
pub const PIXELS: usize = 512;

// .. that is 1 if no old bit is kept: a byte of the table, as its users' contracts have it.
pub const BARE: usize = 513;

// A word four times.
#[tactic(auto, using(crate::proofs::BitParts::fourfold))]
pub fn four(w: u16) -> u64
    ensures { Fourfold w result }
{
    (w as u64) * 0x0001000100010001
}

// Each bit is y's where m's is 1, else x's.
#[tactic(auto, using(crate::proofs::BitParts::choice_bit))]
pub fn mux(m: u64, x: u64, y: u64) -> u64
    ensures { Muxed m x y result }
{
    x ^ ((x ^ y) & m)
}

// Four words under a pattern over their bits: one word's bits under its 1s, another's under its 0s.
#[tactic(auto, using(crate::proofs::BitParts::under_is))]
fn under(over: u64, fore: u16, back: u16) -> u64
    ensures { Under over fore back result }
{
    mux(over, four(back), four(fore))
}

// Eight bytes put at a byte, the low one first.
pub fn put(strips: &mut [u8], at: usize, x: u64)
    requires { at + 8 ≤ length strips.old }
    ensures { Put 8 at x strips.old strips.new }
{
    strips[at..at + 8].copy_from_slice(&x.to_le_bytes());
}

// Strip t put in its place.
fn weave(strips: &mut [u8], fore: Ink, back: Ink, pattern: u16, bits: usize, t: usize)
    requires { (length strips.old ≡ 514) × Depth bits × (t < 16) }
    ensures { Wove fore back pattern bits t strips.old strips.new }
{
    let turned = rotate_left(pattern, t);
    let first = over_first(turned, bits);
    let last = over_last(turned, bits, first);
    put(strips, 32 * t, under(first, fore.keep, back.keep));
    put(strips, 32 * t + 8, under(last, fore.keep, back.keep));
    put(strips, 32 * t + 16, under(first, fore.flip, back.flip));
    put(strips, 32 * t + 24, under(last, fore.flip, back.flip));
}

// How many pixels a word has.
#[tactic(auto, using(crate::proofs::PatternLaws::pixels_fill))]
fn per_of(bits: usize) -> u8
    requires { Depth bits }
    ensures { result * bits ≡ 16 }
{
    (16 / bits) as u8
}

// Whether no old bit is kept.
fn is_bare(fore: Ink, back: Ink) -> bool
    ensures { IsTrue result ↔ ((fore.keep ≡ 0) × (back.keep ≡ 0)) }
{
    fore.keep == 0 && back.keep == 0
}

// The strips of a pen and a pattern.
#[tactic(auto, using(crate::proofs::WeaveLaws::strips_next))]
pub fn woven(pen: Pen, truth: Truth, pattern: u16, bits: usize) -> [u8; 514]
    requires { (truth ≡ truth_of pen.op) × Depth bits }
    ensures { Woven pen pattern bits result }
{
    let fore = fore_of(pen, truth);
    let back = back_of(pen, truth);
    let mut strips = [0u8; 514];
    for t in 0..16 {
        weave(&mut strips, fore, back, pattern, bits, t);
    }
    strips[PIXELS] = per_of(bits);
    strips[BARE] = is_bare(fore, back) as u8;
    strips
}
