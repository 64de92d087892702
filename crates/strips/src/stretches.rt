// A stretch of a row drawn by strips: the words at both ends under a cover, those between by strips of sixteen bytes.
ghost use Rattle.std.specs.Prelude.{◌≡◌, ◌+◌, ◌-◌, ◌*◌, ◌/◌, ◌%◌, ◌≤◌, ◌<◌, length};
ghost use Rattle.strips.specs.Strips.{Table};
ghost use Rattle.strips.specs.Covers.{Covers, Edged};
ghost use Rattle.strips.specs.Stretches.{Stretched};
ghost use Rattle.strips.specs.Tables.{index_at, brushed, InkAt};

use crate::fills::{cover, fill, sixteen};
use crate::inks::Ink;
use crate::weaves::{BARE, PIXELS};

// The byte of the table at which the strip of a row's word begins.
fn strip_at(strips: &[u8], phase: usize, word: usize) -> usize
    requires { Table strips.now × (phase < 16) × (word < 1048576) }
    ensures { result ≡ 32 * index_at strips.now phase word }
{
    32 * ((phase + word * (strips[PIXELS] as usize)) % 16)
}

// What the strip at a byte of the table makes of its first word.
fn ink_at(strips: &[u8], at: usize) -> Ink
    requires { at + 18 ≤ length strips.now }
    ensures { InkAt strips.now at result }
{
    Ink {
        keep: u16::from_le_bytes([strips[at], strips[at + 1]]),
        flip: u16::from_le_bytes([strips[at + 16], strips[at + 17]]),
    }
}

// A cover of a word's bits from the left, from bit `lo` of the row on.
#[tactic(auto, using(crate::proofs::EdgeLaws::lead_covers))]
pub fn lead_of(lo: usize) -> u16
    ensures { Covers (lo % 16) 16 result }
{
    u16::MAX >> (lo % 16)
}

// .. up to bit hi - 1 of the row.
#[tactic(auto, using(crate::proofs::EdgeLaws::tail_covers))]
pub fn tail_of(hi: usize) -> u16
    requires { 0 < hi }
    ensures { Covers 0 ((hi - 1) % 16 + 1) result }
{
    u16::MAX << (15 - (hi - 1) % 16)
}

// A word drawn under a cover.
pub fn edge(buf: &mut [u8], at: usize, ink: Ink, cover: u16)
    requires { at + 2 ≤ length buf.old }
    ensures { Edged at ink cover buf.old buf.new }
{
    let old = u16::from_le_bytes([buf[at], buf[at + 1]]);
    let new = old ^ ((old ^ ((old & ink.keep) ^ ink.flip)) & cover);
    let [low, high] = new.to_le_bytes();
    buf[at] = low;
    buf[at + 1] = high;
}

// The words from .. end - 1 of the row that begins at byte `row`.
fn words(buf: &mut [u8], strips: &[u8], phase: usize, row: usize, from: usize, end: usize)
    requires { Table strips.now × (phase < 16) × (from ≤ end) × (end < 1048576)
        × (row + 2 * end ≤ length buf.old) }
    ensures { Stretched (brushed strips.now phase row) row (16 * from) (16 * end)
        buf.old buf.new }
{
    let at = strip_at(strips, phase, from);
    let flip = sixteen(strips, at + 16);
    let left = row + 2 * from;
    let right = row + 2 * end;
    if strips[BARE] == 1 && from + 8 <= end {
        let close = strip_at(strips, phase, end - 8);
        cover(buf, left, right, flip, sixteen(strips, close + 16));
    } else {
        fill(buf, left, right, sixteen(strips, at), flip);
    }
}

// Bits lo .. hi - 1, from the left, of the row that begins at byte `row`; the pattern has index `phase` at its first
// pixel.
pub fn stretch(buf: &mut [u8], strips: &[u8], phase: usize, row: usize, lo: usize, hi: usize)
    requires { Table strips.now × (phase < 16) × (lo < hi) × (hi < 16777216)
        × (row + 2 * ((hi + 15) / 16) ≤ length buf.old) }
    ensures { Stretched (brushed strips.now phase row) row lo hi
        buf.old buf.new }
{
    let first = lo / 16;
    let last = (hi - 1) / 16;
    let lead = lead_of(lo);
    let tail = tail_of(hi);
    let ink = ink_at(strips, strip_at(strips, phase, first));
    if first == last {
        edge(buf, row + 2 * first, ink, lead & tail);
        return;
    }
    edge(buf, row + 2 * first, ink, lead);
    let ink = ink_at(strips, strip_at(strips, phase, last));
    edge(buf, row + 2 * last, ink, tail);
    words(buf, strips, phase, row, first + 1, last);
}
