// Patterns: sixteen bits, the first in bit 15. Rotated, reversed, counted, and spread over the bits of pixels.
ghost use Rattle.std.specs.Prelude.{◌≡◌, ◌≤◌, ◌<◌, ◌^◌};
ghost use Rattle.model.specs.Bitmaps.{Depth};
ghost use Rattle.strips.specs.Strips.{RotatedLeft, Reversed, Spread, FirstOver, LastOver};
ghost use Rattle.strips.specs.Strokes.{shown, pattern_on};

use crate::weaves::four;

// A pattern rotated left by so many bits.
#[tactic(auto, using(crate::proofs::PatternLaws::rotated_is))]
pub fn rotate_left(pattern: u16, s: usize) -> u16
    requires { s < 16 }
    ensures { RotatedLeft pattern s result }
{
    pattern.rotate_left(s as u32)
}

// A word's bits from the other end.
#[tactic(auto, using(crate::proofs::PatternLaws::reversed_is))]
pub fn reversed(x: u16) -> u16
    ensures { Reversed x result }
{
    x.reverse_bits()
}

// How many bits of a word are 1.
#[tactic(auto, using(crate::proofs::HitLaws::word_ones))]
fn ones(w: u16) -> usize
    ensures { result ≡ shown (pattern_on w) 0 16 }
{
    w.count_ones() as usize
}

// How many of at most sixteen pixels, from a pattern's bit `index` on, have a 1.
#[tactic(auto, using(crate::proofs::HitLaws::ones_first))]
fn few(pattern: u16, index: usize, n: usize) -> usize
    requires { (index < 16) × (n ≤ 16) }
    ensures { result ≡ shown (pattern_on pattern) index n }
{
    let first = (rotate_left(pattern, index) as u32) >> (16 - n);
    ones(first as u16)
}

// .. of n pixels: whole periods of the pattern, and the rest.
#[tactic(auto, using(crate::proofs::HitLaws::pattern_shown, crate::proofs::HitLaws::shown_le))]
pub fn counted(pattern: u16, index: usize, n: usize) -> usize
    requires { (index < 16) × (n < 2 ^ 32) }
    ensures { result ≡ shown (pattern_on pattern) index n }
{
    if n <= 16 {
        return few(pattern, index, n);
    }
    n / 16 * ones(pattern) + few(pattern, index, n % 16)
}

// Eight bits of a pattern over pixels of 2 bits: a word.
fn spread2(pattern: u8) -> u64
    ensures { Spread 2 pattern result }
{
    let x = pattern as u64;
    let a = (x | (x << 4)) & 0x0F0F;
    let b = (a | (a << 2)) & 0x3333;
    let c = (b | (b << 1)) & 0x5555;
    c * 3
}

// Eight bits of a pattern over pixels of 4 bits: two words.
fn spread4(pattern: u8) -> u64
    ensures { Spread 4 pattern result }
{
    let x = pattern as u64;
    let v = (x / 16) | ((x % 16) << 16);
    let a = (v & 0x10001) | ((v << 3) & 0x100010);
    let b = ((v << 6) & 0x1000100) | ((v << 9) & 0x10001000);
    (a | b) * 15
}

// Eight bits of a pattern over pixels of 8 bits: four words.
fn spread8(pattern: u8) -> u64
    ensures { Spread 8 pattern result }
{
    let y = (pattern as u64 * 0x0101010101010101) & 0x0201080420108040;
    (((y + 0x7F7F7F7F7F7F7F7F) >> 7) & 0x0101010101010101) * 255
}

// A pattern over the pixels of a strip, again and again: its first eight bytes.
#[tactic(auto, using(crate::proofs::SpreadLaws::firsts))]
pub fn over_first(pattern: u16, bits: usize) -> u64
    requires { Depth bits }
    ensures { FirstOver pattern bits result }
{
    // One bit a pixel goes first, as the commonest depth.
    if bits == 1 {
        return four(pattern);
    }
    let [low, high] = pattern.to_le_bytes();
    match bits {
        2 => (spread2(high) + (spread2(low) << 16)) * 0x100000001,
        4 => spread4(high) + (spread4(low) << 32),
        _ => spread8(high),
    }
}

// .. its last eight bytes, where these are the first.
#[tactic(auto, using(crate::proofs::SpreadLaws::last_8, crate::proofs::SpreadLaws::last_again))]
pub fn over_last(pattern: u16, bits: usize, first: u64) -> u64
    requires { Depth bits × FirstOver pattern bits first }
    ensures { LastOver pattern bits result }
{
    if bits == 8 {
        let [low, _] = pattern.to_le_bytes();
        spread8(low)
    } else {
        first
    }
}
