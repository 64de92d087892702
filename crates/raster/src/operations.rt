// The sixteen operations as a table, and bytes combined bit by bit with the machine's operations.
ghost use Rattle.std.specs.Prelude.{◌≡◌, ◌+◌, ◌*◌, ◌<◌, ◌≤◌};
ghost use Rattle.model.specs.Words.{num, within};
ghost use Rattle.raster.specs.Operations.{truth_of, muxed, chosen, bit_field};

// A truth table, each of its four bits spread over a byte: A, B, C and D of its code.
#[derive(Clone, Copy)]
pub struct Truth(pub u8, pub u8, pub u8, pub u8);

// The truth tables of the sixteen operations, by code: four bytes each, the first lowest. A word for each is what the
// machine then reads at once.
const TRUTHS: [u32; 16] = [
    0x00000000, 0xFF000000, 0x00FF0000, 0xFFFF0000, 0x0000FF00, 0xFF00FF00, 0x00FFFF00, 0xFFFFFF00,
    0x000000FF, 0xFF0000FF, 0x00FF00FF, 0xFFFF00FF, 0x0000FFFF, 0xFF00FFFF, 0x00FFFFFF, 0xFFFFFFFF,
];

// The truth table of a code.
pub fn truth_of(code: u8) -> Truth
    requires { code < 16 }
    ensures { result ≡ truth_of code }
{
    let [a, b, c, d] = TRUTHS[code as usize].to_le_bytes();
    Truth(a, b, c, d)
}

// Each bit is y's where m's is 1, else x's.
#[tactic(auto, using(crate::proofs::BitLaws::muxed_is))]
pub fn mux(m: u8, x: u8, y: u8) -> u8
    ensures { result ≡ muxed m x y }
{
    x ^ ((x ^ y) & m)
}

// The operation of each bit of a source byte and of an old byte.
#[tactic(auto, unfolding(crate::specs::Operations::chosen))]
pub fn operate(truth: Truth, source: u8, old: u8) -> u8
    ensures { result ≡ chosen truth source old }
{
    let Truth(a, b, c, d) = truth;
    mux(old, mux(source, a, b), mux(source, c, d))
}

// One byte of a word: 0 the low one, 1 the high one. A number, since the byte begins at bit 8 × half.
#[tactic(auto, using(crate::proofs::BitLaws::field_is))]
pub fn half_of(word: u16, half: usize) -> u8
    requires { half < 2 }
    ensures { result ≡ bit_field word (8 * half) 8 }
{
    ((word >> (8 * half)) % 256) as u8
}

// The byte whose b bits from k on are set.
pub fn field_mask(k: usize, b: usize) -> u8
    requires { k + b ≤ 8 }
    ensures { result ≡ num 8 (within k b) }
{
    ((((1u32 << b) - 1) << k) % 256) as u8
}

// The b bits of a byte from k on, as a number.
#[tactic(auto, using(crate::proofs::BitLaws::field_of_is))]
pub fn field_of(byte: u8, k: usize, b: usize) -> u8
    requires { k + b ≤ 8 }
    ensures { result ≡ bit_field byte k b }
{
    (((byte as u32) >> k) % (1u32 << b)) as u8
}
