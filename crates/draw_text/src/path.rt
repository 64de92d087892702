// Where the position goes after a character: along the path, wrapped at 16 bits.
ghost use Rattle.std.specs.Prelude.{◌≡◌};
ghost use Rattle.draw_text.specs.Orientation.{Oriented};
ghost use Rattle.model.specs.Coordinates.{coord, wrap};
ghost use Rattle.model.specs.Glyphs.{advance, on_path, passed};

use model::{Point, Text};

// The pattern by which the position moves: spacing plus the width, or the height where path and rotation
// differ by 90 or 270.
#[tactic(auto, using(crate::proofs::PathLaws::wrap_plus), unfolding(model::specs::Glyphs::advance))]
fn advance_of(text: Text, head: u16) -> u16
    requires { Oriented text }
    ensures { result ≡ wrap (advance text head) }
{
    if (text.path + text.rotation) % 2 == 1 {
        return text.spacing.wrapping_add(head / 256 % 16 + 1);
    }
    text.spacing.wrapping_add(head % 16 + 1)
}

// The position moved by a pattern along the path: 0 +x, 90 -y, 180 -x, 270 +y.
#[tactic(auto, using(crate::proofs::PathLaws::moves), unfolding(model::specs::Glyphs::on_path))]
fn on_path(path: u8, p: Point, d: u16) -> Point
    ensures { result ≡ on_path path p (coord d) }
{
    let back = d.wrapping_neg();
    match path {
        0 => coordinates::move_by(p, d, 0),
        1 => coordinates::move_by(p, 0, back),
        2 => coordinates::move_by(p, back, 0),
        _ => coordinates::move_by(p, 0, d),
    }
}

// The position after a character with this first word: it stays where S is set.
#[tactic(auto, using(crate::proofs::PathLaws::on_path_pattern), unfolding(model::specs::Glyphs::passed))]
pub fn pass(text: Text, head: u16, p: Point) -> Point
    requires { Oriented text }
    ensures { result ≡ passed text head p }
{
    if words::bit_of(head, 14) {
        return p;
    }
    let d = advance_of(text, head);
    on_path(text.path, p, d)
}
