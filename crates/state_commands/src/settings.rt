// What later commands draw with: bitmap, clip and scissor, pen, text, pick mode.
ghost use Rattle.std.specs.Prelude.{◌≡◌, true, false, ◌/◌, ◌%◌};
ghost use Rattle.model.specs.Bitmaps.{bitmap_of};
ghost use Rattle.model.specs.Record.{with_pointer, with_colours, with_operation, with_pattern};
ghost use Rattle.model.specs.Record.{with_spacing, with_orientation, with_font, with_picking};
ghost use Rattle.model.specs.Scissor.{with_bitmap_and_clip};
ghost use Rattle.model.specs.Effects.{font_of, whole_clip};
ghost use Rattle.bitmaps.specs.Places.{Cornered};

use model::{Clip, Font, Pane, Row, Text};

// DEF_BITMAP: the clip becomes the whole bitmap, and the scissor what of it can be drawn on the screen.
pub fn def_bitmap(
    row: Row,
    p: Pane,
    address: u32,
    xmax: u16,
    ymax: u16,
    bits: u16,
    next: u32,
) -> Pane
    requires { Cornered row }
    ensures { result
        ≡ with_pointer (with_bitmap_and_clip row p (bitmap_of address xmax ymax bits) (whole_clip xmax ymax)) next }
{
    let bitmap = bitmaps::bitmap_of(address, xmax, ymax, bits);
    let whole = Clip {
        xmin: 0,
        ymin: 0,
        xmax,
        ymax,
    };
    let scissor = bitmaps::scissor_of(row, bitmap, whole);
    let mut q = Pane { bitmap, ..p };
    q.clip = whole;
    q.scissor = scissor;
    q.progress.pointer = next;
    q
}

// DEF_CLIP_RECT: the scissor goes with the clip.
pub fn def_clip_rect(
    row: Row,
    p: Pane,
    xmin: u16,
    ymin: u16,
    xmax: u16,
    ymax: u16,
    next: u32,
) -> Pane
    requires { Cornered row }
    ensures { result
        ≡ with_pointer (with_bitmap_and_clip row p p.bitmap
        (record { xmin = xmin; ymin = ymin; xmax = xmax; ymax = ymax })) next }
{
    let clip = Clip {
        xmin,
        ymin,
        xmax,
        ymax,
    };
    let bitmap = p.bitmap;
    let scissor = bitmaps::scissor_of(row, bitmap, clip);
    let mut q = p;
    q.clip = clip;
    q.scissor = scissor;
    q.progress.pointer = next;
    q
}

// DEF_COLORS.
pub fn def_colors(p: Pane, fore: u16, back: u16, next: u32) -> Pane
    ensures { result ≡ with_pointer (with_colours p fore back) next }
{
    let mut q = p;
    q.pen.fore = fore;
    q.pen.back = back;
    q.progress.pointer = next;
    q
}

// DEF_LOGICAL_OP: the low four bits of the code count.
pub fn def_logical_op(p: Pane, mask: u16, code: u16, next: u32) -> Pane
    ensures { result ≡ with_pointer (with_operation p (code % 16) mask) next }
{
    let op = (code % 16) as u8;
    let mut q = p;
    q.pen.op = op;
    q.pen.mask = mask;
    q.progress.pointer = next;
    q
}

// DEF_TEXTURE.
pub fn def_texture(p: Pane, pattern: u16, transparent: bool, next: u32) -> Pane
    ensures { result ≡ with_pointer (with_pattern p pattern transparent) next }
{
    let mut q = p;
    q.pen.pattern = pattern;
    q.pen.transparent = transparent;
    q.progress.pointer = next;
    q
}

// DEF_SPACE.
pub fn def_space(p: Pane, spacing: u16, next: u32) -> Pane
    ensures { result ≡ with_pointer (with_spacing p spacing) next }
{
    let mut q = p;
    q.text.spacing = spacing;
    q.progress.pointer = next;
    q
}

// DEF_CHAR_ORIENT: the path in bits 9 and 8, the rotation in bits 1 and 0.
pub fn def_char_orient(p: Pane, orientation: u16, next: u32) -> Pane
    ensures { result ≡ with_pointer (with_orientation p (orientation / 256 % 4) (orientation % 4)) next }
{
    let path = (orientation / 256 % 4) as u8;
    let rotation = (orientation % 4) as u8;
    let mut q = p;
    q.text.path = path;
    q.text.rotation = rotation;
    q.progress.pointer = next;
    q
}

// The font with its base address, in byte mode or in word mode.
pub fn font_of(bytes: bool, base: u32) -> Font
    ensures { result ≡ font_of bytes base }
{
    if bytes {
        return Font::Byte(base);
    }
    Font::Word(base)
}

// DEF_CHAR_SET.
pub fn def_char_set(p: Pane, base: u32, bytes: bool, next: u32) -> Pane
    ensures { result ≡ with_pointer (with_font p (font_of bytes base)) next }
{
    let font = font_of(bytes, base);
    let old = p.text;
    let text = Text { font, ..old };
    let mut q = p;
    q.text = text;
    q.progress.pointer = next;
    q
}

// ENTER_PICK: pick mode on, and the pick flag cleared.
pub fn enter_pick(p: Pane, next: u32) -> Pane
    ensures { result ≡ with_pointer (with_picking p true false) next }
{
    let mut q = p;
    q.flags.picking = true;
    q.flags.pick = false;
    q.progress.pointer = next;
    q
}

// EXIT_PICK: pick mode off, and the pick flag kept.
pub fn exit_pick(p: Pane, next: u32) -> Pane
    ensures { result ≡ with_pointer (with_picking p false p.flags.pick) next }
{
    let mut q = p;
    q.flags.picking = false;
    q.progress.pointer = next;
    q
}
