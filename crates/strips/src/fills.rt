// Bytes of a row drawn by strips of sixteen.
ghost use Rattle.std.specs.Prelude.{◌≡◌, ℕ, ◌+◌, ◌≤◌, ◌<◌, length, get_or};
ghost use Rattle.strips.specs.Strips.{Filled, Laid, Closing};

use std::array;

// Sixteen bytes of a table.
pub fn sixteen(strips: &[u8], at: usize) -> [u8; 16]
    requires { at + 16 ≤ length strips.now }
    ensures { (k : ℕ) → k < 16 → get_or result k 0 ≡ get_or strips.now (at + k) 0 }
{
    array::from_fn(|k| strips[at + k])
}

// Sixteen bytes put. `copy_from_slice` would first look whether the two parts overlap, and take half as long again.
pub fn lay(buf: &mut [u8], i: usize, flip: [u8; 16])
    requires { i + 16 ≤ length buf.old }
    ensures { Laid i (i + 16) flip buf.old buf.new }
{
    for k in 0..16 {
        buf[i + k] = flip[k];
    }
}

// Sixteen bytes mixed.
fn mingle(buf: &mut [u8], i: usize, keep: [u8; 16], flip: [u8; 16])
    requires { i + 16 ≤ length buf.old }
    ensures { Filled i (i + 16) keep flip buf.old buf.new }
{
    for k in 0..16 {
        buf[i + k] = (buf[i + k] & keep[k]) ^ flip[k];
    }
}

// Bytes from .. end - 1, sixteen at least, put by strips; `last` is the strip of the last sixteen. The loop steps by
// hand: one over a count of strips is up to a tenth slower, and so it is in `fill`.
pub fn cover(buf: &mut [u8], from: usize, end: usize, flip: [u8; 16], last: [u8; 16])
    requires { (from + 16 ≤ end) × (end ≤ length buf.old) × Closing from end flip last }
    ensures { Laid from end flip buf.old buf.new }
{
    let mut i = from;
    while i + 32 <= end {
        lay(buf, i, flip);
        lay(buf, i + 16, flip);
        i += 32;
    }
    if i + 16 <= end {
        lay(buf, i, flip);
    }
    lay(buf, end - 16, last);
}

// Bytes from .. end - 1 mixed by a strip, again and again.
pub fn fill(buf: &mut [u8], from: usize, end: usize, keep: [u8; 16], flip: [u8; 16])
    requires { (from ≤ end) × (end ≤ length buf.old) }
    ensures { Filled from end keep flip buf.old buf.new }
{
    let mut i = from;
    while i + 32 <= end {
        mingle(buf, i, keep, flip);
        mingle(buf, i + 16, keep, flip);
        i += 32;
    }
    if i + 16 <= end {
        mingle(buf, i, keep, flip);
        i += 16;
    }
    for k in 0..end - i {
        buf[i + k] = (buf[i + k] & keep[k]) ^ flip[k];
    }
}
