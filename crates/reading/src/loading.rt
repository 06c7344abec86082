// The whole reader: the record in the lent slices, and its flags as the caller's own bytes.
ghost use Rattle.std.specs.Prelude.{◌≡◌, []};
ghost use Rattle.grid.specs.State.{lent};
ghost use Rattle.record.specs.Promise.{Read, Handed};

use crate::reader::read;
use record::Loaded;
use record::flags::flags_of;

pub fn load<'a>(
    rec: &'a [u8],
    parts: &mut [i32],
    masses: &mut [i32],
    fills: &mut [u32],
    carry: &mut [i64],
) -> Loaded<'a>
    ensures { Read rec.now (lent [] parts.old masses.old fills.old carry.old) result.head parts.new masses.new fills.new carry.new × Handed rec.entry (lent [] parts.old masses.old fills.old carry.old) result.flags }
{
    let h = read(rec, parts, masses, fills, carry);
    let f = flags_of(rec, h);
    Loaded { head: h, flags: f }
}
