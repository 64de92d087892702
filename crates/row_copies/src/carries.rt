// Plain bytes moved, from one buffer to another or within one.
ghost use Rattle.std.specs.Prelude.{◌≡◌, ◌&&◌, ◌+◌, ◌%◌, ◌≤◌, eqb, length};
ghost use Rattle.row_copies.specs.Rows.{Carried};

use crate::operators::Operator;
use crate::rows::RowCopy;

// Whether the source passes as it is and lies in the target's phase, so that whole words are plain bytes.
pub fn in_phase(c: RowCopy, operator: Operator) -> bool
    ensures { result ≡ (operator.plain && eqb (c.from % 16) (c.to % 16)) }
{
    operator.plain & (c.from % 16 == c.to % 16)
}

// n bytes of a source, from byte `from` on, put at byte `at` and on.
pub fn carry(dst: &mut [u8], src: &[u8], at: usize, from: usize, n: usize)
    requires { (at + n ≤ length dst.old) × (from + n ≤ length src.now) }
    ensures { Carried at from n src.now dst.old dst.new }
{
    dst[at..at + n].copy_from_slice(&src[from..from + n]);
}

// The same within one buffer, as though all of them were read first.
pub fn carry_within(buf: &mut [u8], at: usize, from: usize, n: usize)
    requires { (at + n ≤ length buf.old) × (from + n ≤ length buf.old) }
    ensures { Carried at from n buf.old buf.old buf.new }
{
    buf.copy_within(from..from + n, at);
}
