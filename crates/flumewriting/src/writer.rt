// The writer.
ghost use Rattle.std.specs.Prelude.{◌≡◌, true, ◌++◌, ◌+◌, ◌*◌, ◌≤◌, pos, length, get_or};
ghost use Rattle.std.proofs.lemmas.List.Edits.{sets};
ghost use Rattle.grid.specs.State.{flag_of, lent};
ghost use Rattle.grid.specs.Answer.{Done};
ghost use Rattle.flume.specs.Flume.{flume_sides_good, flume_cells, level_settings};
ghost use Rattle.record.specs.Places.{end_from};
ghost use Rattle.record.specs.inner.Small.{Small};
ghost use Rattle.record.specs.Layout.{interfaces, liquids, cell_sections};
ghost use Rattle.flumerecord.specs.Layout.{level_site, flume_head_bytes};
ghost use Rattle.flumerecord.specs.Writing.{flume_fits};
ghost use Rattle.flumerecord.specs.Promise.{FlumeWrote};

use crate::front::put_head;
use flume::extent::{cells, good_sides};
use flume::{FlumeSettings, FlumeSides};
use flumegrid::checking::checked9;
use flumegrid::lengths::good_lengths9;
use flumerecord::FlumeSite;
use flumerecord::given::good_site;
use grid::refusals::{Answer, Refusal};
use writing::cells::{put_cells, record_length};

// The record of a flume that passed its tests, into room that suffices.
fn put_record(
    s: FlumeSides,
    g: FlumeSettings,
    t: FlumeSite,
    flags: &[u8],
    parts: &[i32],
    masses: &[i32],
    carry: i64,
    room: &mut [u8],
)
    requires s_value { flume_sides_good s ≡ true }
    requires small { Small (level_settings g) (level_site t) }
    requires flags_len { length flags.now ≡ flume_cells s }
    requires parts_len { length parts.now ≡ 9 * flume_cells s }
    requires masses_len { length masses.now ≡ flume_cells s }
    requires flags_in_bounds { end_from 64 (length flags.now) (interfaces (length flags.now) (flag_of flags.now)) (9 * liquids (length flags.now) (flag_of flags.now)) ≤ length room.old }
    ensures { room.new ≡ sets room.old 0 (flume_head_bytes s g t carry ++ cell_sections 9 (length flags.now) flags.now (λ c. get_or masses.now c (pos 0)) (λ c k. get_or parts.now (9 * c + k) (pos 0))) }
{
    put_head(room, s, g, t, carry);
    put_cells(room, 64, flags, parts, masses, 9);
}

// Tests 1 to 6 of a flume to be written.
fn fit(
    s: FlumeSides,
    g: FlumeSettings,
    t: FlumeSite,
    flags: &[u8],
    parts: &[i32],
    masses: &[i32],
    fills: &[u32],
    carry: &[i64],
) -> Answer
    ensures { result ≡ flume_fits s g t (lent flags.now parts.now masses.now fills.now carry.now) Done }
{
    if !good_sides(s) {
        return Err(Refusal::BadSides);
    }
    let n = cells(s);
    if !good_lengths9(
        flags.len(),
        parts.len(),
        masses.len(),
        fills.len(),
        carry.len(),
        n,
    ) {
        return Err(Refusal::BadLength);
    }
    if !good_site(g, t) {
        return Err(Refusal::BadSetting(0));
    }
    checked9(flags, parts, masses, fills, carry, s)
}

// Writes the record of a flume from the front of the room; room past it stays as it was.
pub fn write(
    s: FlumeSides,
    g: FlumeSettings,
    t: FlumeSite,
    flags: &[u8],
    parts: &[i32],
    masses: &[i32],
    fills: &[u32],
    carry: &[i64],
    room: &mut [u8],
) -> Result<usize, Refusal>
    ensures { FlumeWrote s g t (lent flags.now parts.now masses.now fills.now carry.now) room.old result room.new }
{
    fit(s, g, t, flags, parts, masses, fills, carry)?;
    let long = record_length(flags, 64, 9);
    if room.len() < long {
        return Err(Refusal::BadRoom(long));
    }
    let kept = carry[0];
    put_record(s, g, t, flags, parts, masses, kept, room);
    Ok(long)
}
