// The check of a pane record: refusal 12.
ghost use Rattle.std.specs.Prelude.{◌≡◌};
ghost use Rattle.model.specs.Scissor.{scissor_stale};
ghost use Rattle.model.specs.Setup.{progress_bad, trap_bad, base_bad, font_bad, pane_bad};
ghost use Rattle.bitmaps.specs.Places.{Cornered};

use bitmaps::{clip_outside, rule_broken, scissor_of};
use model::{Flags, Font, Frame, Pane, Progress, Row, STATUS_FAULTED, STATUS_TRAPPED};

// "Addresses have 22 bits": each is below this.
const ADDRESS_END: u32 = 0x400000;

// Whether status and fault don't go together; "refusal 12 admits fault 30 at status 3" (02, A.1).
fn progress_bad(p: Progress) -> bool
    ensures { result ≡ progress_bad p }
{
    (p.status > STATUS_TRAPPED)
        | (((p.status == STATUS_FAULTED) & ((p.fault < 20) | (p.fault > 30)))
            | (!(p.status == STATUS_FAULTED) & !(p.fault == 0)))
}

// Whether status 4 stands without its cause: it is admitted "only with the switch on and the flag set" (02, A.7).
fn trap_bad(status: u8, flags: Flags) -> bool
    ensures { result ≡ trap_bad status flags }
{
    (status == STATUS_TRAPPED) & !(flags.switch & flags.trap)
}

// Whether a font base is odd or above 22 bits.
fn base_bad(base: u32) -> bool
    ensures { result ≡ base_bad base }
{
    (base % 2 == 1) | (base >= ADDRESS_END)
}

// Whether a font's base is odd or above 22 bits; no font has none.
fn font_bad(f: Font) -> bool
    ensures { result ≡ font_bad f }
{
    match f {
        Font::Absent => false,
        Font::Word(base) => base_bad(base),
        Font::Byte(base) => base_bad(base),
    }
}

// Whether a record's scissor isn't what would be computed afresh.
#[tactic(auto, unfolding(model::specs::Scissor::scissor_stale))]
fn scissor_stale(row: Row, p: Pane) -> bool
    requires { Cornered row }
    ensures { result ≡ scissor_stale row p }
{
    let kept = p.scissor;
    let bitmap = p.bitmap;
    let clip = p.clip;
    let afresh = scissor_of(row, bitmap, clip);
    kept != afresh
}

// Whether a pane record is one that refusal 12 refuses, for a pane seen through this frame.
pub fn pane_bad(f: Frame, p: Pane) -> bool
    requires { Cornered f.row }
    ensures { result ≡ pane_bad f.geometry f.row p }
{
    let progress = p.progress;
    let flags = p.flags;
    let bitmap = p.bitmap;
    let clip = p.clip;
    let pen = p.pen;
    let text = p.text;
    let font = text.font;
    let returns = p.returns;
    let row = f.row;
    progress_bad(progress)
        | (trap_bad(progress.status, flags)
            | (rule_broken(f, bitmap)
                | (clip_outside(bitmap, clip)
                    | (font_bad(font)
                        | ((pen.op > 15)
                            | ((text.path > 3)
                                | ((text.rotation > 3)
                                    | ((returns.count > 8) | scissor_stale(row, p)))))))))
}
