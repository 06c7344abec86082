// The writer.
ghost use Rattle.std.specs.Prelude.{◌≡◌, true, ◌++◌, ◌+◌, ◌*◌, ◌≤◌, pos, length, get_or};
ghost use Rattle.std.proofs.lemmas.List.Edits.{sets};
ghost use Rattle.grid.specs.Grid.{sides_good, cells_of};
ghost use Rattle.grid.specs.State.{flag_of, lent};
ghost use Rattle.grid.specs.Answer.{Done};
ghost use Rattle.grid.specs.declared.refusals.Refusal.TheVariants.{BadSides, BadLength, BadSetting};
ghost use Rattle.grid.specs.Outcome.{or_refuse};
ghost use Rattle.pumps.specs.Three.{three_lengths, three_good};
ghost use Rattle.record.specs.Promise.{Wrote};
ghost use Rattle.record.specs.Places.{counts, length_of};
ghost use Rattle.record.specs.Layout.{site_good, interfaces, liquids, head_bytes, cells_bytes};
ghost use Rattle.record.specs.inner.Small.{Small};

use crate::cells::{put_cells, record_length};
use crate::front::put_head;
use grid::Sides;
use grid::extent::{cells, good_sides};
use grid::refusals::{Answer, Refusal};
use lattice::Settings;
use pumps::entry::{checked, three_lengths};
use record::Site;
use record::given::good_site;

// The record of a grid that passed its tests, into room that suffices.
fn put_record(
    s: Sides,
    g: Settings,
    t: Site,
    flags: &[u8],
    parts: &[i32],
    masses: &[i32],
    carry: i64,
    poured: i64,
    taken: i64,
    room: &mut [u8],
)
    requires s_value { sides_good s ≡ true }
    requires small { Small g t }
    requires flags_len { length flags.now ≡ cells_of s }
    requires parts_len { length parts.now ≡ 19 * cells_of s }
    requires masses_len { length masses.now ≡ cells_of s }
    requires flags_in_bounds { length_of counts 3 (length flags.now) (interfaces (length flags.now) (flag_of flags.now)) (19 * liquids (length flags.now) (flag_of flags.now)) ≤ length room.old }
    ensures { room.new ≡ sets room.old 0 (head_bytes s g t carry poured taken ++ cells_bytes (length flags.now) flags.now (λ c. get_or masses.now c (pos 0)) (λ c k. get_or parts.now (19 * c + k) (pos 0))) }
{
    put_head(room, s, g, t, carry, poured, taken);
    put_cells(room, 96, flags, parts, masses, 19);
}

// Tests 1 to 6 of a grid to be written.
fn fit(
    s: Sides,
    g: Settings,
    t: Site,
    flags: &[u8],
    parts: &[i32],
    masses: &[i32],
    fills: &[u32],
    carry: &[i64],
) -> Answer
    ensures { result ≡ or_refuse (sides_good s) BadSides (or_refuse (three_lengths (cells_of s) (lent flags.now parts.now masses.now fills.now carry.now)) BadLength (or_refuse (site_good g t) (BadSetting 0) (three_good s (lent flags.now parts.now masses.now fills.now carry.now) Done))) }
{
    if !good_sides(s) {
        return Err(Refusal::BadSides);
    }
    let n = cells(s);
    if !three_lengths(
        flags.len(),
        parts.len(),
        masses.len(),
        fills.len(),
        carry.len(),
        n,
    ) {
        return Err(Refusal::BadLength);
    }
    if !good_site(g, t) {
        return Err(Refusal::BadSetting(0));
    }
    checked(flags, parts, masses, fills, carry, s)
}

// Writes the record of a grid from the front of the room; room past it stays as it was.
pub fn write(
    s: Sides,
    g: Settings,
    t: Site,
    flags: &[u8],
    parts: &[i32],
    masses: &[i32],
    fills: &[u32],
    carry: &[i64],
    room: &mut [u8],
) -> Result<usize, Refusal>
    ensures { Wrote s g t (lent flags.now parts.now masses.now fills.now carry.now) room.old result room.new }
{
    fit(s, g, t, flags, parts, masses, fills, carry)?;
    let long = record_length(flags, 96, 19);
    if room.len() < long {
        return Err(Refusal::BadRoom(long));
    }
    let kept = carry[0];
    let poured = carry[1];
    let taken = carry[2];
    put_record(s, g, t, flags, parts, masses, kept, poured, taken, room);
    Ok(long)
}
