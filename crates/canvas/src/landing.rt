// The limits of drawing: in the store the clip, on the pane what the scissor holds (02, A.6).
ghost use Rattle.std.specs.Prelude.{◌≡◌};
ghost use Rattle.model.specs.Scissor.{Current};
ghost use Rattle.canvas.specs.Targets.{Limited, first_to_last, limits_of, landing_clip};

use model::{Bitmap, Clip, Pane, Row, Scissor};

// The columns and rows from the first to the last that a scissor holds, from the pane's corner.
fn first_to_last(r: Row, s: Scissor) -> Clip
    requires { Limited r s }
    ensures { result ≡ first_to_last r s }
{
    let x = s.left - r.left;
    let y = s.top - r.top;
    Clip {
        xmin: x as u16,
        ymin: y as u16,
        xmax: (x + s.width - 1) as u16,
        ymax: (y + s.height - 1) as u16,
    }
}

// .. and none if the scissor is empty.
fn limits_of(r: Row, s: Scissor) -> Clip
    requires { (s.width ≡ 0 → ⊥) → Limited r s }
    ensures { result ≡ limits_of r s }
{
    if s.width == 0 {
        return Clip {
            xmin: 1,
            ymin: 1,
            xmax: 0,
            ymax: 0,
        };
    }
    first_to_last(r, s)
}

// The limits of what a record's commands draw. On the pane the scissor says them alone.
pub fn landing_clip(r: Row, p: Pane) -> Clip
    requires { Current r p }
    ensures { result ≡ landing_clip r p.bitmap p.scissor p.clip }
{
    let bitmap = p.bitmap;
    let scissor = p.scissor;
    match bitmap {
        Bitmap::Absent => p.clip,
        Bitmap::Pane { .. } => limits_of(r, scissor),
        Bitmap::Store { .. } => p.clip,
    }
}
