// The flag section as the caller's own bytes.
ghost use Rattle.std.specs.Prelude.{◌≡◌};
ghost use Rattle.record.specs.Promise.{Own};
ghost use Rattle.flumerecord.specs.Promise.{flume_span_of};

use crate::FlumeHead;
use flume::extent::{cells, good_sides};
use record::Span;
use record::section::passed;

// Where the flags stand in the bytes of the record that gave this head.
pub fn span(rec: &[u8], h: FlumeHead) -> Span
    ensures { result ≡ flume_span_of rec.now h }
{
    let a = h.answer;
    if !passed(a) {
        return Span { from: 0, to: 0 };
    }
    let s = h.sides;
    if !good_sides(s) {
        return Span { from: 0, to: 0 };
    }
    let end = 68 + cells(s);
    if rec.len() < end {
        return Span { from: 0, to: 0 };
    }
    Span { from: 68, to: end }
}

// The flags of the record that gave this head; a part of `rec`, and no copy.
pub fn flags_of(rec: &[u8], h: FlumeHead) -> &[u8]
    ensures { Own rec.entry (flume_span_of rec.now h) result }
{
    let p = span(rec, h);
    let from = p.from;
    let to = p.to;
    &rec[from..to]
}
