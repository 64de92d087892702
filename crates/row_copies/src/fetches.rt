// Sixteen bits of a row from any bit on, and the cover of a part of a word.
ghost use Rattle.std.specs.Prelude.{◌+◌, ◌*◌, ◌^◌, ◌≤◌, ◌<◌, length};
ghost use Rattle.strips.specs.Covers.{Covers};
ghost use Rattle.row_copies.specs.Chunks.{Funnelled, Peeked, FetchedBits};

use strips::stretches::{lead_of, tail_of};
use words::word;

// The 16 bits from bit k on, from the left, of two words one after the other.
#[tactic(auto, using(crate::proofs::WordLaws::funnel_is))]
pub fn funnel(x: u16, y: u16, k: usize) -> u16
    requires { k < 16 }
    ensures { Funnelled x y k result }
{
    (x << k) | ((y >> (15 - k)) >> 1)
}

// Word k - 1 of the row that begins at byte `base`; 0 where there is none.
#[tactic(auto, using(crate::proofs::CopyLaws::peeked_is))]
fn peeked(src: &[u8], base: usize, k: usize) -> u16
    requires { (base ≤ length src.now) × (k < 2 ^ 32) }
    ensures { Peeked src.now base k result }
{
    if k == 0 {
        return 0;
    }
    if src.len() - base < 2 * k {
        return 0;
    }
    word(src, base + 2 * (k - 1))
}

// The 16 bits of the row from bit z - 16 on; 0 where the buffer has none.
#[tactic(auto, using(crate::proofs::CopyLaws::fetched_is))]
pub fn fetched(src: &[u8], base: usize, z: usize) -> u16
    requires { (base ≤ length src.now) × (z < 2 ^ 32) }
    ensures { FetchedBits src.now base z result }
{
    let k = z / 16;
    let x = peeked(src, base, k);
    let y = peeked(src, base, k + 1);
    funnel(x, y, z % 16)
}

// A cover of a word's bits from the left, lead to tail - 1.
#[tactic(auto, using(strips::proofs::EdgeLaws::both_cover))]
pub fn cover_of(lead: usize, tail: usize) -> u16
    requires { (lead < tail) × (tail ≤ 16) }
    ensures { Covers lead tail result }
{
    lead_of(lead) & tail_of(tail)
}
