// What an operation under a mask makes of a source word and an old one, worked out once a command.
ghost use Rattle.std.specs.Prelude.{◌≡◌, Bool, ℕ, eqb};
ghost use Rattle.std.specs.Int.Bits.{bit_or, bit_xor};
ghost use Rattle.model.specs.Words.{bit};
ghost use Rattle.raster.specs.Operations.{spread, truth_of};
ghost use Rattle.row_copies.specs.Rows.{ink_over, operator_bit, OperatorOf, Plane};
ghost use Rattle.row_copies.specs.Chunks.{Muxed};

use model::Pen;
use raster::Truth;
use strips::inks::Ink;

// A word becomes (old & ((s & q) ^ r)) ^ ((s & p) ^ a), where s is the source; if `plain`, it becomes s.
#[derive(Clone, Copy)]
pub struct Operator {
    pub a: u16,
    pub p: u16,
    pub q: u16,
    pub r: u16,
    pub plain: bool,
}

// A truth table's entry over a whole word.
#[tactic(auto, using(crate::proofs::WordLaws::plane_none, crate::proofs::WordLaws::plane_all))]
fn plane(entry: u8) -> u16
    ensures { (v : Bool) → entry ≡ spread v → Plane v result }
{
    if entry == 0 { 0 } else { 65535 }
}

// Each bit is y's where m's is 1, else x's.
#[tactic(auto, using(crate::proofs::WordLaws::mux_is))]
fn mux_word(m: u16, x: u16, y: u16) -> u16
    ensures { Muxed m x y result }
{
    x ^ ((x ^ y) & m)
}

// Whether an operator is the source itself: p all ones, the others 0.
fn passes(a: u16, p: u16, q: u16, r: u16) -> bool
    ensures { result ≡ eqb (bit_or (bit_or (bit_or a q) r) (bit_xor p 65535)) 0 }
{
    (((a | q) | r) | (p ^ 65535)) == 0
}

// A pen's operation under its mask: the four entries of its truth table as words, combined.
pub fn operator_of(pen: Pen, truth: Truth) -> Operator
    requires { truth ≡ truth_of pen.op }
    ensures { OperatorOf pen.op pen.mask result }
{
    let mask = pen.mask;
    let none = mux_word(mask, 0, plane(truth.0));
    let source = mux_word(mask, 0, plane(truth.1));
    let old = mux_word(mask, 65535, plane(truth.2));
    let both = mux_word(mask, 65535, plane(truth.3));
    let p = none ^ source;
    let q = none ^ source ^ old ^ both;
    let r = none ^ old;
    Operator {
        a: none,
        p,
        q,
        r,
        plain: passes(none, p, q, r),
    }
}

// What an operator makes of a word with a source word.
pub fn ink_over(source: u16, operator: Operator) -> Ink
    ensures { result ≡ ink_over operator source }
{
    Ink {
        keep: (source & operator.q) ^ operator.r,
        flip: (source & operator.p) ^ operator.a,
    }
}

// A word mixed.
#[tactic(auto, using(crate::proofs::WordLaws::mixed_is))]
pub fn mixed(source: u16, old: u16, operator: Operator) -> u16
    ensures { (j : ℕ) → bit result j ≡ operator_bit operator j (bit source j) (bit old j) }
{
    let ink = ink_over(source, operator);
    (old & ink.keep) ^ ink.flip
}
