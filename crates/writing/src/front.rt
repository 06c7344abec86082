// The writer's sections 1 to 4: sides, settings, origin and totals.
ghost use Rattle.std.specs.Prelude.{◌≡◌, true, [], ◌∷◌, ◌+◌, ◌≤◌, ◌<◌, length};
ghost use Rattle.std.proofs.lemmas.List.Edits.{sets};
ghost use Rattle.whole.specs.laws.Machine.{Within};
ghost use Rattle.grid.specs.Grid.{sides_good};
ghost use Rattle.record.specs.Bytes.{u32_of, i32_of, i64_of};
ghost use Rattle.record.specs.Layout.{section, totals_bytes, head_bytes};
ghost use Rattle.record.specs.inner.Small.{Small};

use grid::Sides;
use lattice::Settings;
use record::Site;
use record::number::{put_i32, put_i64, put_u32};

// A count or a side.
pub fn put_count(room: &mut [u8], at: usize, n: usize)
    requires at_in_bounds { at + 4 ≤ length room.old }
    requires n_bound { n < 4294967296 }
    ensures { room.new ≡ sets room.old at (u32_of n) }
{
    put_u32(room, at, n as u32);
}

pub fn put_setting(room: &mut [u8], at: usize, x: i64)
    requires at_in_bounds { at + 4 ≤ length room.old }
    requires within { Within x 2147483647 }
    ensures { room.new ≡ sets room.old at (i32_of x) }
{
    put_i32(room, at, x as i32);
}

fn put_sides(room: &mut [u8], s: Sides)
    requires in_bounds { 16 ≤ length room.old }
    requires s_value { sides_good s ≡ true }
    ensures { room.new ≡ sets room.old 0 (section 3 (u32_of s.nx ∷ u32_of s.ny ∷ u32_of s.nz ∷ [])) }
{
    put_count(room, 0, 3);
    put_count(room, 4, s.nx);
    put_count(room, 8, s.ny);
    put_count(room, 12, s.nz);
}

fn put_settings(room: &mut [u8], g: Settings, t: Site)
    requires in_bounds { 40 ≤ length room.old }
    requires small { Small g t }
    ensures { room.new ≡ sets room.old 16 (section 5 (i32_of g.p ∷ i32_of g.gx ∷ i32_of g.gy ∷ i32_of g.gz ∷ i32_of t.edge ∷ [])) }
{
    put_count(room, 16, 5);
    put_setting(room, 20, g.p);
    put_setting(room, 24, g.gx);
    put_setting(room, 28, g.gy);
    put_setting(room, 32, g.gz);
    put_setting(room, 36, t.edge);
}

fn put_origin(room: &mut [u8], t: Site)
    requires { 68 ≤ length room.old }
    ensures { room.new ≡ sets room.old 40 (section 3 (i64_of t.x ∷ i64_of t.y ∷ i64_of t.z ∷ [])) }
{
    put_count(room, 40, 3);
    put_i64(room, 44, t.x);
    put_i64(room, 52, t.y);
    put_i64(room, 60, t.z);
}

fn put_totals(room: &mut [u8], carry: i64, poured: i64, taken: i64)
    requires { 96 ≤ length room.old }
    ensures { room.new ≡ sets room.old 68 (totals_bytes carry poured taken) }
{
    put_count(room, 68, 3);
    put_i64(room, 72, carry);
    put_i64(room, 80, poured);
    put_i64(room, 88, taken);
}

// The first 96 bytes.
pub fn put_head(
    room: &mut [u8],
    s: Sides,
    g: Settings,
    t: Site,
    carry: i64,
    poured: i64,
    taken: i64,
)
    requires in_bounds { 96 ≤ length room.old }
    requires s_value { sides_good s ≡ true }
    requires small { Small g t }
    ensures { room.new ≡ sets room.old 0 (head_bytes s g t carry poured taken) }
{
    put_sides(room, s);
    put_settings(room, g, t);
    put_origin(room, t);
    put_totals(room, carry, poured, taken);
}
