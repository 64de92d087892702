// Drawing on the active bitmap, which lies in the screen or in the pane's store: one dot through clip,
// transparency and pick mode. Every drawing command is a list of such dots.
#![tactic(auto)]

pub mod landing; // landing.rt: the limits of drawing

ghost use Rattle.std.specs.Prelude.{◌≡◌, ◌≤◌, ◌<◌, pos, length};
ghost use Rattle.model.specs.Coordinates.{at, coord};
ghost use Rattle.model.specs.Dots.{dot};
ghost use Rattle.model.specs.Pixels.{pen_source, pattern_source};
ghost use Rattle.canvas.specs.Canvas.{canvas, changed_unless, painted, count_end};
ghost use Rattle.canvas.specs.Targets.{Ready, InClip, Aimable, change_with, target_of, course_of, place_on};

use bitmaps::Area;
use landing::landing_clip;
use model::{Clip, Frame, Pane, Pen, Point, Source};
use raster::Truth;

// Where and how a command draws: the area that it draws in, pick mode, the limits there, the pen, and the truth
// table of the pen's operation, looked up once a command. The limits are a clip of the area: in the store the
// record's, on the pane what its scissor holds.
#[derive(Clone, Copy)]
pub struct Target {
    pub area: Area,
    pub picking: bool,
    pub clip: Clip,
    pub pen: Pen,
    pub truth: Truth,
}

// Where and how a pane's record says that commands draw.
pub fn target_of(f: Frame, p: Pane) -> Target
    requires { Aimable f.geometry f.row p }
    ensures { result ≡ target_of f.geometry f.row p }
{
    let row = f.row;
    let bitmap = p.bitmap;
    let pen = p.pen;
    let flags = p.flags;
    let area = bitmaps::landing_area(f, bitmap);
    let clip = landing_clip(row, p);
    let truth = raster::truth_of(pen.op);
    Target {
        area,
        picking: flags.picking,
        clip,
        pen,
        truth,
    }
}

// Which way a command goes from its start: to the left, and up, or not.
#[derive(Clone, Copy)]
pub struct Heading {
    pub left: bool,
    pub up: bool,
}

// Where a command starts, and which way it goes from there.
#[derive(Clone, Copy)]
pub struct Course {
    pub from: Point,
    pub heading: Heading,
}

// The course of a command by (dx,dy) from a position.
pub fn course_of(from: Point, dx: u16, dy: u16) -> Course
    ensures { result ≡ course_of from (coord dx) (coord dy) }
{
    let left = coordinates::is_negative(dx);
    let up = coordinates::is_negative(dy);
    let heading = Heading { left, up };
    Course { from, heading }
}

// How far a pixel lies from the start of a course, along each axis.
#[derive(Clone, Copy)]
pub struct Offset {
    pub x: usize,
    pub y: usize,
}

// What a drawing command answers: where the position then is, whether the trap flag is to be set, and how
// many of its pixels are visible.
#[derive(Clone, Copy)]
pub struct Drawn {
    pub position: Point,
    pub trap: bool,
    pub hits: usize,
}

// What a bit of a pattern or cell puts down.
pub fn pen_source(pen: Pen, transparent: bool, on: bool) -> Source
    ensures { result ≡ pen_source pen transparent on }
{
    if on {
        return Source::Colour(pen.fore);
    }
    if transparent {
        return Source::Nothing;
    }
    Source::Colour(pen.back)
}

// What pixel i of a line is drawn with.
pub fn pattern_source(pen: Pen, i: usize) -> Source
    ensures { result ≡ pattern_source pen i }
{
    let on = words::bit_of(pen.pattern, 15 - i % 16);
    pen_source(pen, pen.transparent, on)
}

// Pixel (x,y) of the bitmap, which lies in the clip, blended with a source; nothing in pick mode.
fn set_pixel(screen: &mut [u8], store: &mut [u8], t: Target, x: usize, y: usize, source: Source)
    requires { Ready t (length screen.old) (length store.old) × InClip t x y }
    ensures { canvas screen.new store.new 0
        ≡ changed_unless t.picking t.area.onscreen t.area.surface (change_with t source x y)
        (canvas screen.old store.old 0) }
{
    if t.picking {
        return;
    }
    let area = t.area;
    let s = area.surface;
    let pen = t.pen;
    let truth = t.truth;
    if area.onscreen {
        raster::blend(screen, s, pen, truth, x, y, source);
    } else {
        raster::blend(store, s, pen, truth, x, y, source);
    }
}

// The dot at (x,y), which lies in the clip: hits, or one more if it is visible.
pub fn plot(
    screen: &mut [u8],
    store: &mut [u8],
    t: Target,
    x: usize,
    y: usize,
    source: Source,
    hits: usize,
) -> usize
    requires { Ready t (length screen.old) (length store.old) × InClip t x y × (hits < count_end) }
    ensures { canvas screen.new store.new result
        ≡ painted t (dot (at (pos x) (pos y)) source) (canvas screen.old store.old hits) }
{
    match source {
        Source::Nothing => hits,
        _ => {
            set_pixel(screen, store, t, x, y, source);
            hits + 1
        }
    }
}

// The dot at an offset on a course: hits, or one more if it is visible.
pub fn draw_dot(
    screen: &mut [u8],
    store: &mut [u8],
    t: Target,
    course: Course,
    o: Offset,
    source: Source,
    hits: usize,
) -> usize
    requires { Ready t (length screen.old) (length store.old)
        × (o.x ≤ 65536) × (o.y ≤ 65536) × (hits < count_end) }
    ensures { canvas screen.new store.new result
        ≡ painted t (dot (place_on course o) source) (canvas screen.old store.old hits) }
{
    let clip = t.clip;
    let from = course.from;
    let h = course.heading;
    let Some(x) = coordinates::index_between(from.x, h.left, o.x, clip.xmin, clip.xmax) else {
        return hits;
    };
    let Some(y) = coordinates::index_between(from.y, h.up, o.y, clip.ymin, clip.ymax) else {
        return hits;
    };
    plot(screen, store, t, x, y, source, hits)
}
