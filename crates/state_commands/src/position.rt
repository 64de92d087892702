// Where the position goes.
ghost use Rattle.std.specs.Prelude.{◌≡◌};
ghost use Rattle.model.specs.Coordinates.{coord, moved};
ghost use Rattle.model.specs.Record.{with_pointer, with_position};

use model::{Pane, Point};

// ABS_MOV.
pub fn abs_mov(p: Pane, x: u16, y: u16, next: u32) -> Pane
    ensures { result ≡ with_pointer (with_position p (record { x = x; y = y })) next }
{
    let position = Point { x, y };
    let mut q = p;
    q.position = position;
    q.progress.pointer = next;
    q
}

// REL_MOV.
pub fn rel_mov(p: Pane, dx: u16, dy: u16, next: u32) -> Pane
    ensures { result ≡ with_pointer (with_position p (moved p.position (coord dx) (coord dy))) next }
{
    let from = p.position;
    let position = coordinates::move_by(from, dx, dy);
    let mut q = p;
    q.position = position;
    q.progress.pointer = next;
    q
}
