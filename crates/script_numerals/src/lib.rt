// Numbers as text: decimal, hex without zeros in front, signed. Each function writes from a place of the
// buffer on and answers the place after; what the buffer has no room for is left out.
#![tactic(auto)]

ghost use Rattle.std.specs.Prelude.{[], ◌∷◌, ◌≤◌, length};
ghost use Rattle.model.specs.Words.{digit};
ghost use Rattle.model.specs.Coordinates.{coord};
ghost use Rattle.script_numerals.specs.Numerals.{decimal_text, hex_text, signed_text, comma_separated, Wrote};

use script_fields::COMMA;

// Writes one byte.
pub fn push(out: &mut [u8], at: usize, byte: u8) -> usize
    requires { at ≤ length out.old }
    ensures { Wrote out.old at (byte ∷ []) out.new result }
{
    if at < out.len() {
        out[at] = byte;
        return at + 1;
    }
    at
}

// Writes bytes, one after the other.
fn append(out: &mut [u8], at: usize, bytes: &[u8]) -> usize
    requires { at ≤ length out.old }
    ensures { Wrote out.old at bytes.now out.new result }
{
    let mut end = at;
    for byte in bytes {
        end = push(out, end, *byte);
    }
    end
}

// Writes a decimal number, without a comma before it.
#[tactic(auto, using(crate::proofs::NumeralLaws::numeral_fewest))]
fn decimal(out: &mut [u8], at: usize, n: u64) -> usize
    requires { at ≤ length out.old }
    ensures { Wrote out.old at (decimal_text n) out.new result }
{
    let mut digits = [0u8; 20];
    let k = io::decimal(n, &mut digits);
    append(out, at, &digits[..k])
}

// Writes a comma and a decimal number.
#[tactic(auto, using(crate::proofs::WroteLaws::written))]
pub fn value(out: &mut [u8], at: usize, n: u64) -> usize
    requires { at ≤ length out.old }
    ensures { Wrote out.old at (comma_separated (decimal_text n ∷ [])) out.new result }
{
    let after = push(out, at, COMMA);
    decimal(out, after, n)
}

// Writes a comma and a hex number.
#[tactic(auto, using(crate::proofs::NumeralLaws::numeral_fewest, crate::proofs::WroteLaws::written))]
pub fn pointer(out: &mut [u8], at: usize, n: u32) -> usize
    requires { at ≤ length out.old }
    ensures { Wrote out.old at (comma_separated (hex_text n ∷ [])) out.new result }
{
    let after = push(out, at, COMMA);
    let mut digits = [0u8; 16];
    let k = io::hex(u64::from(n), 1, &mut digits);
    append(out, after, &digits[..k])
}

// Writes a comma and a coordinate, of which the 16-bit pattern is given.
pub fn coordinate(out: &mut [u8], at: usize, pattern: u16) -> usize
    requires { at ≤ length out.old }
    ensures { Wrote out.old at (comma_separated (signed_text (coord pattern) ∷ []))
        out.new result }
{
    let n = u64::from(pattern);
    if n < 0x8000 {
        return value(out, at, n);
    }
    let comma = push(out, at, COMMA);
    let minus = push(out, comma, b'-');
    decimal(out, minus, 0x1_0000 - n)
}

// Writes a comma and a flag, 1 or 0.
pub fn flag(out: &mut [u8], at: usize, set: bool) -> usize
    requires { at ≤ length out.old }
    ensures { Wrote out.old at (comma_separated (decimal_text (digit set) ∷ [])) out.new result }
{
    value(out, at, u64::from(set))
}
