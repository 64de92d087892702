// Words and bits of a store, and a plain choice between two numbers: leaves that know no pixel and no command.
#![tactic(auto)]

ghost use Rattle.std.specs.Prelude.{◌≡◌, cond, ◌+◌, ◌<◌, length};
ghost use Rattle.model.specs.Words.{bit, word_at};

// The word at a byte of a store, low byte first.
pub fn word(s: &[u8], at: usize) -> u16
    requires { at + 1 < length s.now }
    ensures { result ≡ word_at s.now at }
{
    u16::from_le_bytes([s[at], s[at + 1]])
}

// Bit k of a word.
pub fn bit_of(w: u16, k: usize) -> bool
    requires { k < 16 }
    ensures { result ≡ bit w k }
{
    (w >> k) % 2 == 1
}

// The first number if the test holds, else the second.
pub fn either(test: bool, a: usize, b: usize) -> usize
    ensures { result ≡ cond test a b }
{
    if test { a } else { b }
}
