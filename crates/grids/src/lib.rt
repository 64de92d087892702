// Sixteen rows of sixteen cells, a word each, the leftmost cell in bit 15: transposed, mirrored, their 1s counted.
#![tactic(auto)]

ghost use Rattle.std.specs.Prelude.{◌≡◌, ◌+◌, ◌-◌, ◌*◌, ◌^◌, ◌≤◌, ◌<◌};
ghost use Rattle.std.specs.Int.Bits.{bit_and};
ghost use Rattle.strips.specs.Strokes.{shown, pattern_on};
ghost use Rattle.grids.specs.Grids.{Transposed, Mirrored, ones_in};
ghost use Rattle.grids.specs.Grids.{FourRows, WithRows, Exchanged, Turned, Blockwise};

use coordinates::Edges;
use std::array;

// Four rows each, the first row lowest.
#[derive(Clone, Copy)]
pub struct Pair {
    pub first: u64,
    pub second: u64,
}

// Bits of a where the mask is 1 exchanged with those of b that stand k bits higher.
#[tactic(auto, using(crate::proofs::TransposeLaws::exchanged_is))]
fn exchanged(a: u64, b: u64, k: u64, mask: u64) -> Pair
    requires { k < 64 }
    ensures { Exchanged a b k mask result }
{
    let s = (a ^ (b >> k)) & mask;
    Pair {
        first: a ^ s,
        second: b ^ (s << k),
    }
}

// .. within four rows, where no bit is exchanged twice.
#[tactic(auto, using(crate::proofs::TransposeLaws::turned_is))]
fn turned(q: u64, k: u64, mask: u64) -> u64
    requires { (k < 64) × (bit_and mask (mask * 2 ^ k) ≡ 0) }
    ensures { Turned q k mask result }
{
    let s = (q ^ (q >> k)) & mask;
    q ^ s ^ (s << k)
}

// Each four by four cells of four rows transposed: rows 2 apart, then neighbours.
#[tactic(auto, using(crate::proofs::TransposeLaws::inner_is))]
fn inner(q: u64) -> u64
    ensures { Blockwise q result }
{
    turned(turned(q, 34, 0x33333333), 17, 0x0000555500005555)
}

// Rows 4w to 4w + 3 as one number, the first lowest.
fn four_rows(rows: [u16; 16], w: usize) -> u64
    requires { w < 4 }
    ensures { FourRows rows w result }
{
    (rows[4 * w] as u64)
        + ((rows[4 * w + 1] as u64) << 16)
        + ((rows[4 * w + 2] as u64) << 32)
        + ((rows[4 * w + 3] as u64) << 48)
}

// .. put in their place.
fn with_rows(rows: [u16; 16], w: usize, q: u64) -> [u16; 16]
    requires { w < 4 }
    ensures { WithRows rows w q result }
{
    let mut r = rows;
    r[4 * w] = (q % 65536) as u16;
    r[4 * w + 1] = ((q >> 16) % 65536) as u16;
    r[4 * w + 2] = ((q >> 32) % 65536) as u16;
    r[4 * w + 3] = (q >> 48) as u16;
    r
}

// Rows and columns exchanged: rows 8 apart, 4 apart, then 2 apart and neighbours.
pub fn transposed(rows: [u16; 16]) -> [u16; 16]
    ensures { Transposed rows result }
{
    let a = exchanged(
        four_rows(rows, 0),
        four_rows(rows, 2),
        8,
        0x00FF00FF00FF00FF,
    );
    let b = exchanged(
        four_rows(rows, 1),
        four_rows(rows, 3),
        8,
        0x00FF00FF00FF00FF,
    );
    let c = exchanged(a.first, b.first, 4, 0x0F0F0F0F0F0F0F0F);
    let d = exchanged(a.second, b.second, 4, 0x0F0F0F0F0F0F0F0F);
    let t = [0u16; 16];
    let t = with_rows(t, 0, inner(c.first));
    let t = with_rows(t, 1, inner(c.second));
    let t = with_rows(t, 2, inner(d.first));
    with_rows(t, 3, inner(d.second))
}

// Each row from its other end. `map` takes many times as long, since the rows wait in an iterator.
pub fn mirrored(rows: [u16; 16]) -> [u16; 16]
    ensures { Mirrored rows result }
{
    array::from_fn(|j| strips::reversed(rows[j]))
}

// How many of a row's n cells from cell `hidden` on are 1.
#[tactic(auto, using(strips::proofs::HitLaws::word_ones, crate::proofs::GridLaws::cells_shown))]
fn ones_of(row: u16, hidden: usize, n: usize) -> u16
    requires { (0 < n) × (hidden + n ≤ 16) }
    ensures { result ≡ shown (pattern_on row) hidden n }
{
    ((row << hidden) >> (16 - n)).count_ones() as u16
}

// How many cells are 1 in columns e.first to below e.second of rows f.first to below f.second.
#[tactic(auto, using(crate::proofs::GridLaws::counts))]
pub fn ones_in(rows: [u16; 16], e: Edges, f: Edges) -> usize
    requires { (e.first < e.second) × (e.second ≤ 16) × (f.first ≤ f.second) × (f.second ≤ 16) }
    ensures { result ≡ ones_in rows e.first (e.second - e.first) f.first (f.second - f.first) }
{
    let hidden = e.first;
    let n = e.second - e.first;
    let mut total: u16 = 0;
    for j in f.first..f.second {
        total += ones_of(rows[j], hidden, n);
    }
    total as usize
}
