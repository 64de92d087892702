// CHAR's fault 25, before anything is drawn. Bytes of the store are bad if they are at an odd address (codes
// may be), outside the store, or touch the active bitmap.
ghost use Rattle.std.specs.Prelude.{◌≡◌, false, ◌||◌, ◌^◌, ◌<◌, length};
ghost use Rattle.model.specs.Words.{address_end};
ghost use Rattle.model.specs.Faults.{string_bad, descriptors_bad};
ghost use Rattle.fault_text.specs.Reading.{offsets_bad, codes_bad, descriptor_bad, StringAddressed, Coded};

use crate::descriptor::{descriptor_of, height_of, offset_at};
use bitmaps::{array_bad, bytes_bad};
use model::{Bitmap, Font, Row};

// Whether some offset word that the first n codes of a string name is bad. The codes lie in the store.
fn offsets_bad(store: &[u8], r: Row, active: Bitmap, base: u32, string: usize, n: usize) -> bool
    requires { Coded store.now base string n }
    ensures { result ≡ offsets_bad r active store.now base string n }
{
    let mut bad = false;
    for k in 0..n {
        let at = offset_at(store, base, string + k);
        bad = array_bad(r, active, at, 2) | bad;
    }
    bad
}

// Whether n codes, or some offset word that they name, are bad.
fn codes_bad(store: &[u8], r: Row, active: Bitmap, base: u32, string: usize, n: usize) -> bool
    requires { (length store.now ≡ r.len) × (base < address_end) × (string < address_end) × (n < 65536) }
    ensures { result ≡ codes_bad r active store.now base string n }
{
    if bytes_bad(r, active, string, n) {
        return true;
    }
    offsets_bad(store, r, active, base, string, n)
}

// Whether the string, or in byte mode some offset word, is bad.
fn string_bad(store: &[u8], r: Row, active: Bitmap, font: Font, string: u32, count: u16) -> bool
    requires { StringAddressed r store.now font string }
    ensures { result ≡ string_bad r active store.now font string count }
{
    let at = string as usize;
    let n = count as usize;
    match font {
        Font::Absent => false,
        Font::Word(_) => array_bad(r, active, at, 2 * n),
        Font::Byte(base) => codes_bad(store, r, active, base, at, n),
    }
}

// Whether the descriptor at an address is bad: its first word, or one of the rows that this counts.
fn descriptor_bad(store: &[u8], r: Row, active: Bitmap, at: usize) -> bool
    requires { (length store.now ≡ r.len) × (at < 2 ^ 32) }
    ensures { result ≡ descriptor_bad r active store.now at }
{
    if store.len() < at + 2 {
        return true;
    }
    let rows = height_of(words::word(store, at));
    array_bad(r, active, at, 2 + 2 * rows)
}

// Whether some descriptor is bad, of a string that is not.
fn descriptors_bad(
    store: &[u8],
    r: Row,
    active: Bitmap,
    font: Font,
    string: u32,
    count: u16,
) -> bool
    requires { StringAddressed r store.now font string
        × (string_bad r active store.now font string count ≡ false) }
    ensures { result ≡ descriptors_bad r active store.now font string count }
{
    let n = count as usize;
    let mut bad = false;
    for k in 0..n {
        let at = descriptor_of(store, font, string, k);
        bad = descriptor_bad(store, r, active, at) | bad;
    }
    bad
}

// Whether CHAR has fault 25.
pub fn char_bad(store: &[u8], r: Row, active: Bitmap, font: Font, string: u32, count: u16) -> bool
    requires { StringAddressed r store.now font string }
    ensures { result ≡ (string_bad r active store.now font string count
        || descriptors_bad r active store.now font string count) }
{
    if string_bad(store, r, active, font, string, count) {
        return true;
    }
    descriptors_bad(store, r, active, font, string, count)
}
