// The flag section as the caller's own bytes.
ghost use Rattle.std.specs.Prelude.{◌≡◌};
ghost use Rattle.record.specs.Promise.{span_of, Own};

use crate::places::flags_at;
use crate::section::passed;
use crate::{Head, Span};
use grid::extent::{cells, good_sides};

// Where the flags stand in the bytes of the record that gave this head.
pub fn span(rec: &[u8], h: Head) -> Span
    ensures { result ≡ span_of rec.now h }
{
    let a = h.answer;
    if !passed(a) {
        return Span { from: 0, to: 0 };
    }
    let s = h.sides;
    if !good_sides(s) {
        return Span { from: 0, to: 0 };
    }
    let at = flags_at(rec);
    let end = at + cells(s);
    if rec.len() < end {
        return Span { from: 0, to: 0 };
    }
    Span { from: at, to: end }
}

// The flags of the record that gave this head; a part of `rec`, and no copy.
pub fn flags_of(rec: &[u8], h: Head) -> &[u8]
    ensures { Own rec.entry (span_of rec.now h) result }
{
    let p = span(rec, h);
    let from = p.from;
    let to = p.to;
    &rec[from..to]
}
