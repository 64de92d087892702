// A row copied, from another buffer or within one, as though all of it were read first: the words at both ends under a
// cover, those between by bytes or by chunks of eight words. All is inlined into `copy_row` and, for each direction,
// into `slide_row`, so that the loops are made for one source and one direction: else a row of 31 pixels takes a quarter
// longer, and a long one a third.
ghost use Rattle.std.specs.Prelude.{◌≡◌, ◌+◌, ◌-◌, ◌*◌, ◌≤◌, ◌<◌};
ghost use Rattle.strips.specs.Stretches.{Stretched};
ghost use Rattle.row_copies.specs.Rows.{copied, source_in, RowsFit, SoundOperator, Slidable, ReadFirst};
ghost use Rattle.row_copies.specs.Rows.{PartOf, Inner, Eight};

use crate::carries::{carry, carry_within, in_phase};
use crate::chunks::{funnel8, mixed8, put8, words8};
use crate::fetches::{cover_of, fetched};
use crate::operators::{Operator, ink_over};
use crate::rows::{RowCopy, ends_of};
use strips::stretches::edge;

// The buffer that a copy reads: another one, or where none is given the target's own.
fn source_in<'a>(source: Option<&'a [u8]>, own: &'a [u8]) -> &'a [u8]
    ensures { result.now ≡ source_in source.entry own.now }
{
    source.unwrap_or(own)
}

// Bits lead to tail - 1, from the left, of a word of the target's row, their source read from the buffer as it is when
// called.
fn copy_word(
    buf: &mut [u8],
    source: Option<&[u8]>,
    c: RowCopy,
    operator: Operator,
    word: usize,
    lead: usize,
    tail: usize,
)
    requires { RowsFit c buf.old (source_in source buf.old) × PartOf c word lead tail }
    ensures { Stretched (copied operator c (source_in source.entry buf.old)) c.row
        (16 * word + lead) (16 * word + tail) buf.old buf.new }
{
    let bits = fetched(
        source_in(source, buf),
        c.base,
        16 * word + 16 + c.from - c.to,
    );
    let ink = ink_over(bits, operator);
    edge(buf, c.row + 2 * word, ink, cover_of(lead, tail));
}

// Eight whole words from word w on, their source read first; the source has nine.
#[inline(always)]
fn copy8(buf: &mut [u8], source: Option<&[u8]>, c: RowCopy, operator: Operator, w: usize)
    requires { RowsFit c buf.old (source_in source buf.old) × Eight c w }
    ensures { Stretched (copied operator c (source_in source.entry buf.old)) c.row (16 * w) (16 * w + 128)
        buf.old buf.new }
{
    let z = 16 * w + c.from - c.to;
    let at = c.base + 2 * (z / 16);
    let src = source_in(source, buf);
    let x = words8(src, at);
    let y = words8(src, at + 2);
    let s = funnel8(x, y, z % 16);
    let put = c.row + 2 * w;
    let old = words8(buf, put);
    let t = mixed8(s, old, operator);
    put8(buf, put, t);
}

// Whole words first .. last - 1, any operation and phase: eight at a time and then one by one, from the first on, or
// from the last on if `back`.
#[inline(always)]
fn copy_words(
    buf: &mut [u8],
    source: Option<&[u8]>,
    c: RowCopy,
    operator: Operator,
    first: usize,
    last: usize,
    back: bool,
)
    requires { RowsFit c buf.old (source_in source buf.old) × ReadFirst source back c × Inner c first last }
    ensures { Stretched (copied operator c (source_in source.entry buf.old)) c.row (16 * first) (16 * last)
        buf.old buf.new }
{
    let chunks = (last - first) / 8;
    if back {
        let rest = last - 8 * chunks;
        for k in (0..chunks).rev() {
            copy8(buf, source, c, operator, rest + 8 * k);
        }
        for w in (first..rest).rev() {
            copy_word(buf, source, c, operator, w, 0, 16);
        }
    } else {
        let rest = first + 8 * chunks;
        for k in 0..chunks {
            copy8(buf, source, c, operator, first + 8 * k);
        }
        for w in rest..last {
            copy_word(buf, source, c, operator, w, 0, 16);
        }
    }
}

// Whole words first .. last - 1: plain bytes where the source passes in phase.
#[inline(always)]
fn copy_inner(
    buf: &mut [u8],
    source: Option<&[u8]>,
    c: RowCopy,
    operator: Operator,
    first: usize,
    last: usize,
    back: bool,
)
    requires { RowsFit c buf.old (source_in source buf.old) × SoundOperator operator
        × ReadFirst source back c × Inner c first last }
    ensures { Stretched (copied operator c (source_in source.entry buf.old)) c.row (16 * first) (16 * last)
        buf.old buf.new }
{
    if first == last {
        return;
    }
    if !in_phase(c, operator) {
        copy_words(buf, source, c, operator, first, last, back);
        return;
    }
    let at = c.row + 2 * first;
    let from = c.base + 2 * ((16 * first + c.from - c.to) / 16);
    let n = 2 * (last - first);
    match source {
        Some(src) => carry(buf, src, at, from, n),
        None => carry_within(buf, at, from, n),
    }
}

// A row's copy, from its first word on, or from its last on if `back`.
#[inline(always)]
fn copy_stretch(buf: &mut [u8], source: Option<&[u8]>, c: RowCopy, operator: Operator, back: bool)
    requires { RowsFit c buf.old (source_in source buf.old) × SoundOperator operator × ReadFirst source back c }
    ensures { Stretched (copied operator c (source_in source.entry buf.old)) c.row c.to (c.to + c.count)
        buf.old buf.new }
{
    if c.count == 0 {
        return;
    }
    let e = ends_of(c);
    if e.first == e.last {
        copy_word(buf, source, c, operator, e.first, e.lead, e.tail);
        return;
    }
    if back {
        copy_word(buf, source, c, operator, e.last, 0, e.tail);
        copy_inner(buf, source, c, operator, e.first + 1, e.last, back);
        copy_word(buf, source, c, operator, e.first, e.lead, 16);
    } else {
        copy_word(buf, source, c, operator, e.first, e.lead, 16);
        copy_inner(buf, source, c, operator, e.first + 1, e.last, back);
        copy_word(buf, source, c, operator, e.last, 0, e.tail);
    }
}

// A row's copy from one buffer to another.
pub fn copy_row(dst: &mut [u8], src: &[u8], c: RowCopy, operator: Operator)
    requires { RowsFit c dst.old src.now × SoundOperator operator }
    ensures { Stretched (copied operator c src.now) c.row c.to (c.to + c.count)
        dst.old dst.new }
{
    copy_stretch(dst, Some(src), c, operator, false);
}

// A row's copy within one buffer: from the first word on where the source lies behind the target, else from the last
// on.
pub fn slide_row(buf: &mut [u8], c: RowCopy, operator: Operator)
    requires { RowsFit c buf.old buf.old × Slidable c × SoundOperator operator }
    ensures { Stretched (copied operator c buf.old) c.row c.to (c.to + c.count)
        buf.old buf.new }
{
    if c.from < c.to {
        copy_stretch(buf, None, c, operator, true);
    } else {
        copy_stretch(buf, None, c, operator, false);
    }
}
