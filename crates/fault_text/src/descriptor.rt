// A character's descriptor: where it stands, and what its first word says.
ghost use Rattle.std.specs.Prelude.{◌≡◌, ◌+◌, ◌*◌, ◌≤◌, ◌<◌, length, get_or};
ghost use Rattle.model.specs.Glyphs.{base_of, offset_word, descriptor, height_of, width_of};
ghost use Rattle.fault_text.specs.Reading.{Spelt};

use model::Font;
use words::word;

// The rows that a descriptor's first word gives.
pub fn height_of(head: u16) -> usize
    ensures { (result ≡ height_of head) × (result ≤ 16) }
{
    usize::from(head) / 256 % 16 + 1
}

// The columns that a descriptor's first word gives.
pub fn width_of(head: u16) -> usize
    ensures { (result ≡ width_of head) × (result ≤ 16) }
{
    usize::from(head) % 16 + 1
}

// The address of the offset word that the code at a byte of the store names.
pub fn offset_at(store: &[u8], base: u32, at: usize) -> usize
    requires { at < length store.now }
    ensures { (result ≡ offset_word base (get_or store.now at 0)) × (result ≤ base + 510) }
{
    let code = usize::from(store[at]);
    base as usize + 2 * code
}

// The address of the descriptor that a selector names.
fn named(base: u32, selector: u16) -> usize
    ensures { (result ≡ base + 2 * selector) × (result ≤ base + 131070) }
{
    base as usize + 2 * usize::from(selector)
}

// The address of the descriptor of character k of a string; 0 without a font.
pub fn descriptor_of(store: &[u8], font: Font, string: u32, k: usize) -> usize
    requires { Spelt font store.now string k }
    ensures { (result ≡ descriptor font store.now string k) × (result ≤ base_of font + 131070) }
{
    match font {
        Font::Absent => 0,
        Font::Word(base) => {
            let at = string as usize + 2 * k;
            named(base, word(store, at))
        }
        Font::Byte(base) => {
            let at = offset_at(store, base, string as usize + k);
            named(base, word(store, at))
        }
    }
}
