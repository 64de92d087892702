// A script's text: a line's end, its fields, and the numbers and bytes they spell.
#![tactic(auto)]

ghost use Rattle.std.specs.Prelude.{◌≡◌, ◌≢◌, ℕ, suc, ◌≤◌, List, [], ◌∷◌, ◌++◌, length, take, option_map};
ghost use Rattle.script_fields.specs.Numbers.{digit_of, longer, spelled_number};
ghost use Rattle.script_fields.specs.Fields.{line_feed, fields_of, field, spelled_bytes, line_numbers};
ghost use Rattle.script_fields.specs.Fields.{most_script, most_bytes};

// The line feed that ends a line.
pub const LINE_FEED: u8 = 10;

// What stands between two fields.
pub const COMMA: u8 = 44;

// The longest script.
pub const MOST_SCRIPT: usize = 8192;

// The most bytes that a field of a script spells, of two digits each.
pub const MOST_BYTES: usize = MOST_SCRIPT / 2;

// The two bases of numbers.
pub const DECIMAL: u32 = 10;

pub const HEX: u32 = 16;

// A byte that is no digit has this value, which no digit has. No `Option` says so: in a base above 16 it is a digit.
const NO_DIGIT: u32 = 16;

// A line without the line feed that ends it, if one does.
pub fn without_line_feed(line: &[u8]) -> &[u8]
    ensures within { length result.now ≤ length line.now }
    ensures ended { (text : List ℕ) → line.now ≡ text ++ line_feed ∷ [] → result.now ≡ text }
    ensures unended { ((text : List ℕ) → line.now ≢ text ++ line_feed ∷ []) → result.now ≡ line.now }
{
    line.strip_suffix(&[LINE_FEED]).unwrap_or(line)
}

// How many commas a line has: one fewer than its fields.
fn commas(line: &[u8]) -> usize
    ensures { suc result ≡ length (fields_of line.now) }
{
    line.iter().filter(|b| **b == COMMA).count()
}

// Field k of a line, the letter being field 0. Empty if it has fewer.
pub fn field(line: &[u8], k: usize) -> &[u8]
    ensures within { length result.now ≤ length line.now }
    ensures value { result.now ≡ field (fields_of line.now) k }
{
    line.split(|b| *b == COMMA).nth(k).unwrap_or(&[])
}

// The value of a digit, in either case.
fn digit(byte: u8) -> u32
    ensures { result ≡ digit_of byte }
{
    char::from(byte).to_digit(HEX).unwrap_or(NO_DIGIT)
}

// A number with one digit more, unless that is none of the base or the number passes 32 bits.
#[tactic(auto, unfolding(crate::specs::Numbers::longer))]
fn longer(value: u32, base: u32, digit: u32) -> Option<u32>
    ensures { result ≡ longer value base digit }
{
    if base <= digit {
        return None;
    }
    value.checked_mul(base)?.checked_add(digit)
}

// The number that a field spells in a base of at most 16. An empty field spells none; leading zeros are fine.
#[tactic(auto, using(crate::proofs::NumberLaws::digits_taken))]
fn whole(field: &[u8], base: u32) -> Option<u32>
    ensures { result ≡ spelled_number base field.now }
{
    if field.is_empty() {
        return None;
    }
    let mut value = 0;
    for byte in field {
        value = longer(value, base, digit(*byte))?;
    }
    Some(value)
}

// The numbers that the first fields after a line's letter spell, each in its base. The line is to have so many
// fields after its letter.
#[tactic(auto, using(crate::proofs::ReadingLaws::numbers_read))]
pub fn numbers(line: &[u8], fields: usize, bases: &[u32]) -> Option<[u32; 5]>
    requires { length bases.now ≤ 5 }
    ensures { option_map (take (length bases.now)) result
        ≡ line_numbers fields bases.now (fields_of line.now) }
{
    if commas(line) != fields {
        return None;
    }
    let mut values = [0; 5];
    for (i, base) in bases.iter().enumerate() {
        values[i] = whole(field(line, i + 1), *base)?;
    }
    Some(values)
}

// Puts the bytes that a field spells, two hex digits each, at the start of the buffer, and answers how many
// there are: none from an empty field. Nothing with an odd number of digits, or with a byte that is no digit.
#[tactic(auto, using(crate::proofs::ReadingLaws::bytes_read))]
fn spelled_bytes(field: &[u8], buffer: &mut [u8]) -> Option<usize>
    requires field_len_bound { length field.now ≤ most_script }
    requires most_bytes_in_bounds { most_bytes ≤ length buffer.old }
    ensures { option_map (λ n. take n buffer.new) result ≡ spelled_bytes field.now }
{
    if field.len() % 2 == 1 {
        return None;
    }
    for (i, digits) in field.chunks_exact(2).enumerate() {
        buffer[i] = whole(digits, HEX)? as u8;
    }
    Some(field.len() / 2)
}

// The bytes of field k, put at the start of the buffer; answers how many there are.
pub fn bytes(line: &[u8], k: usize, buffer: &mut [u8]) -> Option<usize>
    requires line_len_bound { length line.now ≤ most_script }
    requires most_bytes_in_bounds { most_bytes ≤ length buffer.old }
    ensures { option_map (λ n. take n buffer.new) result
        ≡ spelled_bytes (field (fields_of line.now) k) }
{
    spelled_bytes(field(line, k), buffer)
}
