// The scissor: where drawing can land on the screen (02, A.6).
ghost use Rattle.std.specs.Prelude.{◌≡◌, cond};
ghost use Rattle.model.specs.Record.{no_scissor};
ghost use Rattle.model.specs.Scissor.{clip_empty, clip_on_screen, scissor_of};
ghost use Rattle.bitmaps.specs.Places.{Cornered};

use model::{Bitmap, Clip, Row, Scissor};

// Drawing can land nowhere: "four zeros".
fn no_scissor() -> Scissor
    ensures { result ≡ no_scissor }
{
    Scissor {
        left: 0,
        top: 0,
        width: 0,
        height: 0,
    }
}

// The scissor of a pane that draws on itself: its clip, in screen coordinates.
fn pane_scissor(r: Row, c: Clip) -> Scissor
    requires { Cornered r }
    ensures { result ≡ cond (clip_empty c) no_scissor (clip_on_screen r c) }
{
    if (c.xmax < c.xmin) | (c.ymax < c.ymin) {
        return no_scissor();
    }
    Scissor {
        left: r.left + c.xmin as u32,
        top: r.top + c.ymin as u32,
        width: c.xmax as u32 + 1 - c.xmin as u32,
        height: c.ymax as u32 + 1 - c.ymin as u32,
    }
}

// The scissor of a pane with this row, active bitmap and clip.
pub fn scissor_of(r: Row, b: Bitmap, c: Clip) -> Scissor
    requires { Cornered r }
    ensures { result ≡ scissor_of r b c }
{
    match b {
        Bitmap::Absent => no_scissor(),
        Bitmap::Pane { .. } => pane_scissor(r, c),
        Bitmap::Store { .. } => no_scissor(),
    }
}
