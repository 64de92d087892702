// The stamps that a circle is drawn with, worked out once a command.
ghost use Rattle.std.specs.Prelude.{◌≡◌, length};
ghost use Rattle.model.specs.Bitmaps.{Depth};
ghost use Rattle.raster.specs.Operations.{truth_of};
ghost use Rattle.draw_circles.specs.Tables.{Blank, StampsFor};

use canvas::Target;
use stamps::stamps_of;

// Stamps that change nothing: every bit is kept, and none is flipped.
fn blank() -> [u8; 64]
    ensures { (length result ≡ 64) × Blank result }
{
    let mut stamps = [0; 64];
    stamps[..32].fill(255);
    stamps
}

// The stamps of a target: its pen's, or in pick mode stamps that change nothing, so that no pixel asks for the mode.
pub fn stamps_for(t: Target) -> [u8; 64]
    requires { (t.truth ≡ truth_of t.pen.op) × Depth t.area.surface.bits }
    ensures { StampsFor t result }
{
    if t.picking {
        return blank();
    }
    stamps_of(t.pen, t.truth, t.area.surface.bits)
}
