// The whole reader: the record in the lent slices, and its flags as the caller's own bytes.
ghost use Rattle.std.specs.Prelude.{◌≡◌, []};
ghost use Rattle.grid.specs.State.{lent};
ghost use Rattle.flumerecord.specs.Promise.{FlumeRead, FlumeHanded};

use crate::reader::read;
use flumerecord::FlumeLoaded;
use flumerecord::flags::flags_of;

pub fn load<'a>(
    rec: &'a [u8],
    parts: &mut [i32],
    masses: &mut [i32],
    fills: &mut [u32],
    carry: &mut [i64],
) -> FlumeLoaded<'a>
    ensures { FlumeRead rec.now (lent [] parts.old masses.old fills.old carry.old) result.head parts.new masses.new fills.new carry.new × FlumeHanded rec.entry (lent [] parts.old masses.old fills.old carry.old) result.flags }
{
    let h = read(rec, parts, masses, fills, carry);
    let f = flags_of(rec, h);
    FlumeLoaded { head: h, flags: f }
}
