// Covers of four words: which of their bits are drawn.
ghost use Rattle.std.specs.Prelude.{◌≡◌, ℕ, ◌-◌, ◌<◌};
ghost use Rattle.model.specs.Words.{bit};
ghost use Rattle.strips.specs.Stretches.{across};
ghost use Rattle.stencils.specs.Stencils.{FourCovers};

// Four words whose bits stand from the left, as they stand in a buffer: the first word lowest.
#[tactic(auto, using(crate::proofs::StencilLaws::in_words, crate::proofs::StencilLaws::words_sum))]
fn in_words(x: u64) -> u64
    ensures { (i : ℕ) → i < 64 → bit result i ≡ bit x (63 - across 0 i) }
{
    let low = (x >> 48) + (((x >> 32) % 65536) << 16);
    let high = ((x >> 16) % 65536) + ((x % 65536) << 16);
    low + (high << 32)
}

// A cover of four words' bits from the left, lo to hi - 1.
#[tactic(auto, using(crate::proofs::StencilLaws::covers))]
pub fn cover_of(lo: usize, hi: usize) -> u64
    requires { lo < 64 }
    ensures { FourCovers lo hi result }
{
    let all = u64::MAX;
    if hi > 63 {
        in_words(all >> lo)
    } else if hi > lo {
        in_words((all >> lo) ^ (all >> hi))
    } else {
        0
    }
}

// .. of those from bit n on, where the bits before bit `end` are drawn.
pub fn cover_from(end: usize, n: usize) -> u64
    ensures { FourCovers 0 (end - n) result }
{
    cover_of(0, end.saturating_sub(n))
}
