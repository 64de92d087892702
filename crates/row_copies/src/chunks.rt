// Eight words at once. The loops have a fixed length, so that the compiler makes a few vector operations of each.
ghost use Rattle.std.specs.Prelude.{◌+◌, ◌≤◌, ◌<◌, length};
ghost use Rattle.row_copies.specs.Chunks.{Words8, Funnelled8, Mixed8, Put8};

use crate::fetches::funnel;
use crate::operators::{Operator, mixed};
use raster::operations::half_of;
use words::word;

// Eight words of a buffer.
pub fn words8(buf: &[u8], at: usize) -> [u16; 8]
    requires { at + 16 ≤ length buf.now }
    ensures { Words8 buf.now at 8 result }
{
    std::array::from_fn(|j| word(buf, at + 2 * j))
}

// Each of eight words with the one after it, from bit k on.
pub fn funnel8(x: [u16; 8], y: [u16; 8], k: usize) -> [u16; 8]
    requires { k < 16 }
    ensures { Funnelled8 x y k 8 result }
{
    std::array::from_fn(|j| funnel(x[j], y[j], k))
}

// Eight words mixed.
pub fn mixed8(s: [u16; 8], old: [u16; 8], operator: Operator) -> [u16; 8]
    ensures { Mixed8 s old operator 8 result }
{
    std::array::from_fn(|j| mixed(s[j], old[j], operator))
}

// Eight words put into a buffer.
pub fn put8(buf: &mut [u8], at: usize, t: [u16; 8])
    requires { at + 16 ≤ length buf.old }
    ensures { Put8 at t 8 buf.old buf.new }
{
    for j in 0..8 {
        buf[at + 2 * j] = half_of(t[j], 0);
        buf[at + 2 * j + 1] = half_of(t[j], 1);
    }
}
