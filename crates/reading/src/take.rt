// An accepted record into the lent slices.
ghost use Rattle.std.specs.Prelude.{◌≡◌, ◌*◌, length};
ghost use Rattle.grid.specs.Answer.{Done};
ghost use Rattle.record.specs.Reading.{cells_in, content_answer};
ghost use Rattle.record.specs.inner.Passes.{Sound, Taken};

use crate::load::load_parts;
use crate::weigh::load_masses;
use record::count::interface_cells;
use record::number::i64_at;
use record::places::{flags_at, later_in};

pub fn take(
    rec: &[u8],
    n: usize,
    parts: &mut [i32],
    masses: &mut [i32],
    fills: &mut [u32],
    carry: &mut [i64],
)
    requires sound { Sound rec.now }
    requires rec_value { content_answer rec.now ≡ Done }
    requires n_value { n ≡ cells_in rec.now }
    requires parts_len { length parts.old ≡ 19 * n }
    requires masses_len { length masses.old ≡ n }
    requires fills_len { length fills.old ≡ n }
    requires carry_len { length carry.old ≡ 3 }
    ensures { Taken rec.now parts.new masses.new fills.new carry.new }
{
    let at = flags_at(rec);
    let end = at + n;
    let flags = &rec[at..end];
    let i = interface_cells(flags);
    load_parts(rec, flags, end + 8 + 4 * i, parts);
    load_masses(rec, flags, end + 4, parts, masses, fills);
    let kept = i64_at(rec, 72);
    let poured = later_in(rec, 1);
    let taken = later_in(rec, 2);
    carry[0] = kept;
    carry[1] = poured;
    carry[2] = taken;
}
