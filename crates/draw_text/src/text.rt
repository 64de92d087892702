// A string, character by character: each drawn at the position, which then moves along the path.
ghost use Rattle.std.specs.Prelude.{length};
ghost use Rattle.model.specs.Ranges.{listed};
ghost use Rattle.model.specs.Words.{word_at};
ghost use Rattle.model.specs.Glyphs.{descriptor, string, trapping};
ghost use Rattle.canvas.specs.Canvas.{canvas, Drew};
ghost use Rattle.draw_text.specs.Cells.{GlyphReady};
ghost use Rattle.draw_text.specs.Orientation.{Oriented};
ghost use Rattle.draw_text.specs.Writing.{Writable, character_drawing};

use crate::cells::{grid_of, style_of};
use crate::path::pass;
use crate::rows::draw_grid;
use canvas::{Drawn, Target};
use fault_text::descriptor_of;
use model::{Point, Text};

// The characters that CHAR names: where their string stands, how many there are, and whether bits of 0 are
// left out.
#[derive(Clone, Copy)]
pub struct Characters {
    pub string: u32,
    pub count: u16,
    pub transparent: bool,
}

// The character whose descriptor stands at an address, drawn after those that d tells of.
fn character(
    screen: &mut [u8],
    store: &mut [u8],
    t: Target,
    text: Text,
    transparent: bool,
    d: Drawn,
    at: usize,
) -> Drawn
    requires { GlyphReady t (length screen.old) store.old at (word_at store.old at) d.hits × Oriented text }
    ensures { Drew t
        (trapping d.trap (character_drawing t.pen transparent text store.old d.position at))
        (canvas screen.old store.old d.hits) result screen.new store.new }
{
    let head = words::word(store, at);
    let from = d.position;
    let style = style_of(text.rotation, from, transparent);
    let g = grid_of(store, style.sideways, at, head);
    let hits = draw_grid(screen, store, t, style, g, d.hits);
    let position = pass(text, head, from);
    let trap = d.trap | words::bit_of(head, 15);
    Drawn {
        position,
        trap,
        hits,
    }
}

// The characters of a string that the check has passed, from a position on.
pub fn draw_string(
    screen: &mut [u8],
    store: &mut [u8],
    t: Target,
    text: Text,
    from: Point,
    c: Characters,
) -> Drawn
    requires { Writable t (length screen.old) store.old text c.string c.count }
    ensures { Drew t (string t.pen c.transparent text store.old from
        (listed 0 c.count (descriptor text.font store.old c.string)))
        (canvas screen.old store.old 0) result screen.new store.new }
{
    let mut d = Drawn {
        position: from,
        trap: false,
        hits: 0,
    };
    for k in 0..c.count as usize {
        let at = descriptor_of(store, text.font, c.string, k);
        d = character(screen, store, t, text, c.transparent, d, at);
    }
    d
}
