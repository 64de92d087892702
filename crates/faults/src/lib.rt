// Each command's fault, looked for before any of that command is done.
#![tactic(auto)]

ghost use Rattle.std.specs.Prelude.{◌≡◌, false, cond, ◌||◌, ◌%◌, ◌≤◌, ◌<◌, ◌^◌, eqb, leb, length};
ghost use Rattle.model.specs.Numbers.{
  fault_met,
  fault_bitmap,
  fault_no_bitmap,
  fault_clip,
  fault_data,
  fault_call,
  fault_return,
  fault_no_font,
  fault_copy,
  fault_radius,
};
ghost use Rattle.model.specs.Words.{address_end};
ghost use Rattle.model.specs.Coordinates.{coord, negative};
ghost use Rattle.model.specs.Bitmaps.{surface_of, rule_broken};
ghost use Rattle.model.specs.Commands.{Addressed};
ghost use Rattle.model.specs.Copies.{rectangle_of, block_bad};
ghost use Rattle.model.specs.Faults.{
  no_bitmap,
  no_font,
  clip_outside,
  array_bad,
  string_bad,
  descriptors_bad,
  copy_fault,
  fault_of,
};
ghost use Rattle.bitmaps.specs.Areas.{Active};
ghost use Rattle.fault_text.specs.Reading.{StringAddressed};
ghost use Rattle.faults.specs.Checking.{clip_of, Checkable, MayFault};

use bitmaps::surface_of;
use fault_copies::block_bad;
use model::{Bitmap, Block, Clip, Command, Context, Fault, Font, Frame, Row};

// ---- Commands that change the record alone

// DEF_CHAR_SET's fault.
fn font_fault(base: u32) -> Result<(), Fault>
    ensures { fault_met result ≡ cond (eqb (base % 2) 1) fault_data 0 }
{
    if base % 2 == 1 {
        return Err(Fault::Data);
    }
    Ok(())
}

// CALL's fault.
fn call_fault(kept: u8) -> Result<(), Fault>
    ensures { fault_met result ≡ cond (leb 8 kept) fault_call 0 }
{
    if 8 <= kept {
        return Err(Fault::Call);
    }
    Ok(())
}

// RETURN's fault.
fn return_fault(kept: u8) -> Result<(), Fault>
    ensures { fault_met result ≡ cond (eqb kept 0) fault_return 0 }
{
    if kept == 0 {
        return Err(Fault::Return);
    }
    Ok(())
}

// DEF_BITMAP's fault.
fn bitmap_fault(f: Frame, b: Bitmap) -> Result<(), Fault>
    ensures { fault_met result ≡ cond (rule_broken f.geometry f.row b) fault_bitmap 0 }
{
    if bitmaps::rule_broken(f, b) {
        return Err(Fault::Bitmap);
    }
    Ok(())
}

// ---- Commands that need the active bitmap

// The fault of a command that needs the active bitmap.
fn needs_bitmap(active: Bitmap) -> Result<(), Fault>
    ensures { fault_met result ≡ cond (no_bitmap active) fault_no_bitmap 0 }
{
    if bitmaps::no_bitmap(active) {
        return Err(Fault::NoBitmap);
    }
    Ok(())
}

// DEF_CLIP_RECT's fault.
fn clip_fault(active: Bitmap, xmin: u16, ymin: u16, xmax: u16, ymax: u16) -> Result<(), Fault>
    ensures { fault_met result
        ≡ cond (no_bitmap active) fault_no_bitmap (cond (clip_outside active (clip_of xmin ymin xmax ymax)) fault_clip 0) }
{
    needs_bitmap(active)?;
    let clip = Clip {
        xmin,
        ymin,
        xmax,
        ymax,
    };
    if bitmaps::clip_outside(active, clip) {
        return Err(Fault::Clip);
    }
    Ok(())
}

// The fault of POLYLINE or SCAN_LINES, whose array has so many bytes.
fn array_fault(r: Row, active: Bitmap, array: u32, size: usize) -> Result<(), Fault>
    requires { (array < address_end) × (size < 2 ^ 32) }
    ensures { fault_met result ≡ cond (no_bitmap active) fault_no_bitmap (cond (array_bad r active array size) fault_data 0) }
{
    needs_bitmap(active)?;
    if bitmaps::array_bad(r, active, array as usize, size) {
        return Err(Fault::Data);
    }
    Ok(())
}

// CIRCLE's fault.
fn circle_fault(active: Bitmap, radius: u16) -> Result<(), Fault>
    ensures { fault_met result ≡ cond (no_bitmap active) fault_no_bitmap (cond (negative (coord radius)) fault_radius 0) }
{
    let negative = coordinates::is_negative(radius);
    needs_bitmap(active)?;
    if negative {
        return Err(Fault::Radius);
    }
    Ok(())
}

// Whether there is no font.
fn no_font(font: Font) -> bool
    ensures { result ≡ no_font font }
{
    matches!(font, Font::Absent)
}

// CHAR's fault.
fn char_fault(
    store: &[u8],
    r: Row,
    active: Bitmap,
    font: Font,
    string: u32,
    count: u16,
) -> Result<(), Fault>
    requires { StringAddressed r store.now font string }
    ensures { fault_met result
        ≡ cond (no_bitmap active) fault_no_bitmap (cond (no_font font) fault_no_font
        (cond (string_bad r active store.now font string count
        || descriptors_bad r active store.now font string count) fault_data 0)) }
{
    needs_bitmap(active)?;
    if no_font(font) {
        return Err(Fault::NoFont);
    }
    if fault_text::char_bad(store, r, active, font, string, count) {
        return Err(Fault::Data);
    }
    Ok(())
}

// ---- Copies

// BIT_BLT's fault: the source lies in the active bitmap.
fn block_fault(f: Frame, active: Bitmap, b: Block) -> Result<(), Fault>
    requires { (f.geometry.width ≤ 4096) × (f.geometry.depth ≤ 8) }
    ensures { fault_met result
        ≡ cond (no_bitmap active) fault_no_bitmap
        (cond (block_bad (surface_of f.geometry f.row active) (rectangle_of b)) fault_copy 0) }
{
    needs_bitmap(active)?;
    if block_bad(surface_of(f, active), b) {
        return Err(Fault::Copy);
    }
    Ok(())
}

// BIT_BLT_M's fault but for 23, by its source bitmap. What the source shares with the active bitmap is looked
// at last, since only a rectangle inside a bitmap that keeps the rule has all its bytes in the store.
fn copy_fault(f: Frame, active: Bitmap, source: Bitmap, b: Block) -> Result<(), Fault>
    requires { Active f.geometry f.row active × (no_bitmap source ≡ false) }
    ensures { fault_met result ≡ copy_fault f.geometry f.row active source (rectangle_of b) }
{
    if bitmaps::rule_broken(f, source) {
        return Err(Fault::Bitmap);
    }
    let s = surface_of(f, source);
    if block_bad(s, b) {
        return Err(Fault::Copy);
    }
    if fault_copies::sharing(active, source, s, b) {
        return Err(Fault::Copy);
    }
    Ok(())
}

// ---- All commands

// Whether a command may be faulty. Where not, its fault needs no looking for.
pub fn may_fault(c: Command) -> bool
    ensures { MayFault c result }
{
    match c {
        Command::Link { .. }
        | Command::Nop
        | Command::DefTexture { .. }
        | Command::DefColors { .. }
        | Command::DefLogicalOp { .. }
        | Command::EnterPick
        | Command::ExitPick
        | Command::DefSpace { .. }
        | Command::DefCharOrient { .. }
        | Command::AbsMov { .. }
        | Command::RelMov { .. } => false,
        _ => true,
    }
}

// A command's fault, if it has one.
#[tactic(auto, unfolding(model::specs::Faults::fault_of))]
pub fn fault_of(store: &[u8], f: Frame, x: Context, c: Command) -> Result<(), Fault>
    requires { Checkable f.geometry f.row x (length store.now) × Addressed c }
    ensures { fault_met result ≡ fault_of f.geometry f.row x store.now c }
{
    let r = f.row;
    let active = x.bitmap;
    let font = x.font;
    let kept = x.kept;
    match c {
        Command::Link { .. } => Ok(()),
        Command::Nop => Ok(()),
        Command::DefTexture { .. } => Ok(()),
        Command::DefCharSet { base, bytes: _ } => font_fault(base),
        Command::Call { .. } => call_fault(kept),
        Command::Return => return_fault(kept),
        Command::DefBitmap {
            address,
            xmax,
            ymax,
            bits,
        } => bitmap_fault(f, bitmaps::bitmap_of(address, xmax, ymax, bits)),
        Command::DefColors { .. } => Ok(()),
        Command::DefLogicalOp { .. } => Ok(()),
        Command::EnterPick => Ok(()),
        Command::ExitPick => Ok(()),
        Command::DefClipRect {
            xmin,
            ymin,
            xmax,
            ymax,
        } => clip_fault(active, xmin, ymin, xmax, ymax),
        Command::DefSpace { .. } => Ok(()),
        Command::DefCharOrient { .. } => Ok(()),
        Command::AbsMov { .. } => Ok(()),
        Command::RelMov { .. } => Ok(()),
        Command::Point { .. } => needs_bitmap(active),
        Command::Line { .. } => needs_bitmap(active),
        Command::Rect { .. } => needs_bitmap(active),
        Command::BitBlt { block } => block_fault(f, active, block),
        Command::Polyline { array, count } => array_fault(r, active, array, 4 * (count as usize)),
        Command::Circle { radius } => circle_fault(active, radius),
        Command::Char {
            string,
            count,
            transparent: _,
        } => char_fault(store, r, active, font, string, count),
        Command::BitBltM {
            address,
            xmax,
            ymax,
            block,
        } => {
            let source = bitmaps::source_of(f, active, address, xmax, ymax);
            needs_bitmap(active)?;
            copy_fault(f, active, source, block)
        }
        Command::ScanLines { array, count } => array_fault(r, active, array, 6 * (count as usize)),
    }
}
