// One row's copy in numbers, and its words at both ends.
ghost use Rattle.std.specs.Prelude.{◌+◌, ◌≤◌, ◌<◌};
ghost use Rattle.row_copies.specs.Rows.{EndsOf};

// `count` bits of the row that begins at byte `base` of the source, from bit `from` on, from the left, go to the row
// that begins at byte `row` of the target, bit `to` and on.
#[derive(Clone, Copy)]
pub struct RowCopy {
    pub row: usize,
    pub to: usize,
    pub base: usize,
    pub from: usize,
    pub count: usize,
}

// The first and the last word of a row that a copy changes: its first bit in the first, the bit after its last in the
// last, both from the left.
#[derive(Clone, Copy)]
pub struct Ends {
    pub first: usize,
    pub lead: usize,
    pub last: usize,
    pub tail: usize,
}

// The ends of a row's copy.
pub fn ends_of(c: RowCopy) -> Ends
    requires { (0 < c.count) × (c.to + c.count ≤ 524288) }
    ensures { EndsOf c result }
{
    let end = c.to + c.count;
    let last = (end - 1) / 16;
    Ends {
        first: c.to / 16,
        lead: c.to % 16,
        last,
        tail: end - 16 * last,
    }
}
