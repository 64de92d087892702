// Where a bitmap's pixels lie: in the screen or in the pane's store, and at which of its bytes and bits.
ghost use Rattle.std.specs.Prelude.{◌≡◌, false, ◌≤◌};
ghost use Rattle.model.specs.Bitmaps.{is_pane, surface_of};
ghost use Rattle.model.specs.Faults.{no_bitmap};
ghost use Rattle.bitmaps.specs.Areas.{Active, OnScreen, area_of, landing_area, screen_from, source_of};

use crate::{bitmap_of, row_words};
use model::{Bitmap, Frame, Surface};

// A surface, which lies in the screen if `onscreen` and else in the store.
#[derive(Clone, Copy)]
pub struct Area {
    pub onscreen: bool,
    pub surface: Surface,
}

// The surface of a bitmap: the pane's rectangle of the screen, or a bitmap in the store.
pub fn surface_of(f: Frame, b: Bitmap) -> Surface
    requires { (f.geometry.width ≤ 4096) × (f.geometry.depth ≤ 8) }
    ensures { result ≡ surface_of f.geometry f.row b }
{
    let g = f.geometry;
    let r = f.row;
    match b {
        Bitmap::Absent => Surface {
            base: 0,
            words: 0,
            bits: 0,
            left: 0,
            top: 0,
            width: 0,
            height: 0,
        },
        Bitmap::Pane { .. } => Surface {
            base: 0,
            words: row_words(g.width as usize, g.depth as usize),
            bits: g.depth as usize,
            left: r.left as usize,
            top: r.top as usize,
            width: r.width as usize,
            height: r.height as usize,
        },
        Bitmap::Store {
            address,
            xmax,
            ymax,
            bits,
        } => Surface {
            base: address as usize,
            words: row_words(xmax as usize + 1, bits as usize),
            bits: bits as usize,
            left: 0,
            top: 0,
            width: xmax as usize + 1,
            height: ymax as usize + 1,
        },
    }
}

// Whether a bitmap is the pane.
pub fn is_pane(b: Bitmap) -> bool
    ensures { result ≡ is_pane b }
{
    matches!(b, Bitmap::Pane { .. })
}

// The area of a bitmap.
pub fn area_of(f: Frame, b: Bitmap) -> Area
    requires { (f.geometry.width ≤ 4096) × (f.geometry.depth ≤ 8) }
    ensures { result ≡ area_of f.geometry f.row b }
{
    let surface = surface_of(f, b);
    Area {
        onscreen: is_pane(b),
        surface,
    }
}

// The screen from the pane's corner on.
fn screen_from(f: Frame) -> Surface
    requires { OnScreen f.geometry f.row }
    ensures { result ≡ screen_from f.geometry f.row }
{
    let g = f.geometry;
    let r = f.row;
    Surface {
        base: 0,
        words: row_words(g.width as usize, g.depth as usize),
        bits: g.depth as usize,
        left: r.left as usize,
        top: r.top as usize,
        width: (g.width - r.left) as usize,
        height: (g.height - r.top) as usize,
    }
}

// The area that commands draw in, by the active bitmap. On the pane the row says where its corner is, and no more.
pub fn landing_area(f: Frame, b: Bitmap) -> Area
    requires { OnScreen f.geometry f.row }
    ensures { result ≡ landing_area f.geometry f.row b }
{
    match b {
        Bitmap::Absent => area_of(f, b),
        Bitmap::Pane { .. } => {
            let surface = screen_from(f);
            Area {
                onscreen: true,
                surface,
            }
        }
        Bitmap::Store { .. } => area_of(f, b),
    }
}

// The bitmap that BIT_BLT_M names: it has the active bitmap's bits per pixel.
pub fn source_of(f: Frame, active: Bitmap, address: u32, xmax: u16, ymax: u16) -> Bitmap
    requires { Active f.geometry f.row active }
    ensures { (result ≡ source_of f.geometry f.row active address xmax ymax) × (no_bitmap result ≡ false) }
{
    let s = surface_of(f, active);
    bitmap_of(address, xmax, ymax, s.bits as u16)
}
