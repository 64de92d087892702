// A row of at most sixteen cells drawn through two inks, four words at a time: the words beside the cells, which lie
// under no cover, are read and written as they are. The caller sees to it that the buffer has them.
#![tactic(auto)]

pub mod covers; // covers.rt: which bits of four words are drawn
pub mod fours; // fours.rt: four words of a buffer mixed under a cover

ghost use Rattle.std.specs.Prelude.{◌+◌, ◌*◌, ◌≤◌, ◌<◌, length};
ghost use Rattle.model.specs.Bitmaps.{Depth};
ghost use Rattle.strips.specs.Stretches.{Stretched};
ghost use Rattle.stencils.specs.Stencils.{WideOf, Chosen, Usable, StencilOf, RoomFor, stencilled};

use crate::covers::{cover_from, cover_of};
use crate::fours::{WideInk, mix};
use strips::inks::Ink;
use strips::patterns::{over_first, over_last, rotate_left};
use strips::weaves::{four, mux};

// Where cells lie in a row, and what they are drawn with: the first word of the row, the bits of cells from `lead` to
// below `end`, from the left of that word, the pattern's index at that word's first pixel, and the inks of 1s and of
// 0s. The covers of the first four words, the next four and those after them follow from that.
#[derive(Clone, Copy)]
pub struct Stencil {
    pub bits: usize,
    pub word: usize,
    pub turn: usize,
    pub lead: usize,
    pub end: usize,
    pub fore: WideInk,
    pub back: WideInk,
    pub first: u64,
    pub second: u64,
    pub third: u64,
}

// A word's ink for four words.
fn wide(ink: Ink) -> WideInk
    ensures { WideOf ink result }
{
    WideInk {
        keep: four(ink.keep),
        flip: four(ink.flip),
    }
}

// The stencil of bits lo .. hi - 1, from the left, of a row; the pattern has index `turn` at the first pixel of the
// word that holds bit lo.
pub fn stencil_of(fore: Ink, back: Ink, bits: usize, turn: usize, lo: usize, hi: usize) -> Stencil
    requires { Depth bits × (turn < 16) × (lo < hi) × (hi ≤ lo + 128) × (hi < 16777216) }
    ensures { StencilOf fore back bits turn lo hi result }
{
    let lead = lo % 16;
    let end = hi - (lo - lead);
    Stencil {
        bits,
        word: lo / 16,
        turn,
        lead,
        end,
        fore: wide(fore),
        back: wide(back),
        first: cover_of(lead, end),
        second: cover_from(end, 64),
        third: cover_from(end, 128),
    }
}

// What the inks make of four words, by the cells over their bits.
fn chosen(s: Stencil, over: u64) -> WideInk
    ensures { Chosen s.fore s.back over result }
{
    let fore = s.fore;
    let back = s.back;
    WideInk {
        keep: mux(over, back.keep, fore.keep),
        flip: mux(over, back.flip, fore.flip),
    }
}

// Cells drawn in the row that begins at byte `row`: sixteen, the leftmost in bit 15, again and again. The buffer has
// four whole words for each four that are drawn on.
pub fn draw_cells(buf: &mut [u8], s: Stencil, row: usize, cells: u16)
    requires { Usable s × RoomFor s row (length buf.old) }
    ensures { Stretched (stencilled s cells row) row (16 * s.word + s.lead) (16 * s.word + s.end)
        buf.old buf.new }
{
    let at = row + 2 * s.word;
    let met = rotate_left(cells, s.turn);
    let first = over_first(met, s.bits);
    mix(buf, at, chosen(s, first), s.first);
    if s.end > 64 {
        let last = over_last(met, s.bits, first);
        mix(buf, at + 8, chosen(s, last), s.second);
        if s.end > 128 {
            mix(buf, at + 16, chosen(s, first), s.third);
        }
    }
}
