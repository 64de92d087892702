// Four words of a buffer, mixed under a cover. All four are read and written, and those under no cover stay as they
// are: the caller sees to it that the buffer has them.
ghost use Rattle.std.specs.Prelude.{◌≡◌, ℕ, ◌+◌, ◌*◌, ◌≤◌, ◌<◌, length};
ghost use Rattle.model.specs.Words.{bit, bit_at};
ghost use Rattle.stencils.specs.Stencils.{FourMixed};

use std::array;
use strips::weaves::{mux, put};

// Four words become (old & keep) ^ flip. No generic type with `Ink`, which contracts of other crates name.
#[derive(Clone, Copy)]
pub struct WideInk {
    pub keep: u64,
    pub flip: u64,
}

// Eight bytes as a number, the low one first.
fn eight(buf: &[u8], at: usize) -> u64
    requires { at + 8 ≤ length buf.now }
    ensures { (i : ℕ) → i < 64 → bit result i ≡ bit_at buf.now (8 * at + i) }
{
    u64::from_le_bytes(array::from_fn(|k| buf[at + k]))
}

// Four words become (old & keep) ^ flip where the cover is 1.
pub fn mix(buf: &mut [u8], at: usize, ink: WideInk, cover: u64)
    requires { at + 8 ≤ length buf.old }
    ensures { FourMixed at ink cover buf.old buf.new }
{
    let old = eight(buf, at);
    put(buf, at, mux(cover, old, (old & ink.keep) ^ ink.flip));
}
