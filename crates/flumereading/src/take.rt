// An accepted record into the lent slices.
ghost use Rattle.std.specs.Prelude.{◌≡◌, ◌*◌, length};
ghost use Rattle.grid.specs.Answer.{Done};
ghost use Rattle.flumerecord.specs.Reading.{flume_cells_in, flume_content};
ghost use Rattle.flumerecord.specs.inner.Passes.{FlumeSound, FlumeTaken};

use crate::load::load_parts;
use crate::weigh::load_masses;
use record::count::interface_cells;
use record::number::i64_at;

pub fn take(
    rec: &[u8],
    n: usize,
    parts: &mut [i32],
    masses: &mut [i32],
    fills: &mut [u32],
    carry: &mut [i64],
)
    requires flume_sound { FlumeSound rec.now }
    requires rec_value { flume_content rec.now ≡ Done }
    requires n_value { n ≡ flume_cells_in rec.now }
    requires parts_len { length parts.old ≡ 9 * n }
    requires masses_len { length masses.old ≡ n }
    requires fills_len { length fills.old ≡ n }
    requires carry_len { length carry.old ≡ 1 }
    ensures { FlumeTaken rec.now parts.new masses.new fills.new carry.new }
{
    let end = 68 + n;
    let flags = &rec[68..end];
    let i = interface_cells(flags);
    load_parts(rec, flags, end + 8 + 4 * i, parts);
    load_masses(rec, flags, end + 4, parts, masses, fills);
    let kept = i64_at(rec, 56);
    carry[0] = kept;
}
