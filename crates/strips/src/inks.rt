// What a pen makes of a word: (old & keep) ^ flip, for the pattern's 1s and for its 0s.
ghost use Rattle.std.specs.Prelude.{◌≡◌, true, false, ◌<◌};
ghost use Rattle.raster.specs.Operations.{truth_of};
ghost use Rattle.strips.specs.Strips.{MixOf, ColourInk, InkOf};

use model::Pen;
use raster::Truth;
use raster::operations::{half_of, mux, operate};

// A byte becomes (old & keep) ^ flip.
#[derive(Clone, Copy)]
pub struct Mix {
    pub keep: u8,
    pub flip: u8,
}

// A word becomes (old & keep) ^ flip. No generic type with `Mix`: contracts of `spans` and `row_copies` name this one.
#[derive(Clone, Copy)]
pub struct Ink {
    pub keep: u16,
    pub flip: u16,
}

// What a pen makes of one half of a word, the source a colour: flip is the operation at an old bit 0, keep ^ flip
// the one at an old bit 1.
#[tactic(auto, using(crate::proofs::InkLaws::mix_is))]
fn mix_of(pen: Pen, truth: Truth, colour: u16, half: usize) -> Mix
    requires { (truth ≡ truth_of pen.op) × (half < 2) }
    ensures { MixOf pen colour half result }
{
    let source = half_of(colour, half);
    let mask = half_of(pen.mask, half);
    let flip = mux(mask, 0, operate(truth, source, 0));
    let one = mux(mask, 255, operate(truth, source, 255));
    Mix {
        keep: flip ^ one,
        flip,
    }
}

// What a pen makes of a word, the source a colour.
#[tactic(auto, using(crate::proofs::InkLaws::ink_joined))]
fn ink_of(pen: Pen, truth: Truth, colour: u16) -> Ink
    requires { truth ≡ truth_of pen.op }
    ensures { ColourInk pen colour result }
{
    let low = mix_of(pen, truth, colour, 0);
    let high = mix_of(pen, truth, colour, 1);
    Ink {
        keep: u16::from_le_bytes([low.keep, high.keep]),
        flip: u16::from_le_bytes([low.flip, high.flip]),
    }
}

// What a pen makes of a word under a pattern's 1s.
pub fn fore_of(pen: Pen, truth: Truth) -> Ink
    requires { truth ≡ truth_of pen.op }
    ensures { InkOf pen true result }
{
    ink_of(pen, truth, pen.fore)
}

// What a pen makes of a word under a pattern's 0s.
#[tactic(auto, using(crate::proofs::InkLaws::back_none))]
pub fn back_of(pen: Pen, truth: Truth) -> Ink
    requires { truth ≡ truth_of pen.op }
    ensures { InkOf pen false result }
{
    if pen.transparent {
        Ink {
            keep: 65535,
            flip: 0,
        }
    } else {
        ink_of(pen, truth, pen.back)
    }
}
