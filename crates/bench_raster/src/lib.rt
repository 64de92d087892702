// Many blends for the measurement in bench/raster, which calls this from C. No program links it.
#![tactic(auto)]

ghost use Rattle.std.specs.Prelude.{◌≡◌, ◌<◌, length};
ghost use Rattle.model.specs.Bitmaps.{Depth};

use model::{Pen, Source, Surface};

// Pixels of a surface of 128 by 64 in a buffer of 8192 bytes blended with a colour, row after row, until
// `turns` are done.
#[unsafe(no_mangle)]
pub extern "C" fn bench_raster_paint(
    buffer: &mut [u8],
    bits: usize,
    turns: usize,
    op: u8,
    mask: u16,
    colour: u16,
)
    requires { Depth bits × (length buffer.old ≡ 8192) × (op < 16) }
{
    let s = Surface {
        base: 0,
        words: 64,
        bits,
        left: 0,
        top: 0,
        width: 128,
        height: 64,
    };
    let pen = Pen {
        fore: colour,
        back: 0,
        op,
        mask,
        pattern: 0,
        transparent: false,
    };
    let truth = raster::truth_of(op);
    for i in 0..turns {
        raster::blend(
            buffer,
            s,
            pen,
            truth,
            i % 128,
            i / 128 % 64,
            Source::Colour(colour),
        );
    }
}
