// Pixel: the call that answers one of a pane's pixels. Crate `console` has it under one name with the others.
#![tactic(auto)]

ghost use Rattle.std.specs.Prelude.{◌≡◌};
ghost use Rattle.model.specs.Numbers.{refused_by};
ghost use Rattle.model.specs.Calls.{exec, on, own_refusal};
ghost use Rattle.model.specs.Calls as calls;
ghost use Rattle.model.specs.declared.Pane.{Pane};
ghost use Rattle.call_common.specs.Answers.{state, answer};

use bitmaps::surface_of;
use call_common::{Answered, admit, refused, replied};
use model::{Bitmap, Console, Frame, Refusal, Reply, Row};

// Pixel's own check: refused 5 outside the pane.
#[tactic(auto, unfolding(model::specs::Calls::own_refusal))]
fn check_pixel(row: Row, x: u32, y: u32) -> Result<(), Refusal>
    ensures { (p : Pane) → refused_by result ≡ own_refusal row p (calls.pixel x y) }
{
    if (x < row.width) & (y < row.height) {
        return Ok(());
    }
    Err(Refusal::Pixel)
}

// Answers the value of pixel (x,y) from the corner of the pane with a number; changes nothing; refused 5
// outside the pane.
pub fn pixel(
    screen: &[u8],
    stores: &[u8],
    console: Console,
    number: u32,
    x: u32,
    y: u32,
) -> Answered
    ensures { answer result screen.now stores.now
        ≡ exec (state console screen.now stores.now) (on number (calls.pixel x y)) }
{
    let admission = match admit(screen.len(), stores.len(), console, number) {
        Ok(admission) => admission,
        Err(refusal) => return refused(console, refusal),
    };
    if let Err(refusal) = check_pixel(admission.row, x, y) {
        return refused(console, refusal);
    }
    let geometry = console.geometry;
    let row = admission.row;
    // a bitmap that is the pane, whatever its values, is the pane's rectangle of the screen
    let pane = Bitmap::Pane {
        xmax: 0,
        ymax: 0,
        bits: 0,
    };
    let surface = surface_of(Frame { geometry, row }, pane);
    let value = raster::pixel_at(screen, surface, x as usize, y as usize);
    replied(console, Reply::Value(value))
}
