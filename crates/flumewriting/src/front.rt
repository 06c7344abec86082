// The flume writer's sections 1 to 4: sides, settings, origin and carry.
ghost use Rattle.std.specs.Prelude.{◌≡◌, true, [], ◌∷◌, ◌≤◌, length};
ghost use Rattle.std.proofs.lemmas.List.Edits.{sets};
ghost use Rattle.flume.specs.Flume.{flume_sides_good, level_settings};
ghost use Rattle.record.specs.Bytes.{u32_of, i32_of, i64_of};
ghost use Rattle.record.specs.Layout.{section};
ghost use Rattle.record.specs.inner.Small.{Small};
ghost use Rattle.flumerecord.specs.Layout.{level_site, flume_head_bytes};

use flume::{FlumeSettings, FlumeSides};
use flumerecord::FlumeSite;
use record::number::put_i64;
use writing::front::{put_count, put_setting};

fn put_sides(room: &mut [u8], s: FlumeSides)
    requires in_bounds { 12 ≤ length room.old }
    requires s_value { flume_sides_good s ≡ true }
    ensures { room.new ≡ sets room.old 0 (section 2 (u32_of s.nx ∷ u32_of s.nz ∷ [])) }
{
    put_count(room, 0, 2);
    put_count(room, 4, s.nx);
    put_count(room, 8, s.nz);
}

fn put_settings(room: &mut [u8], g: FlumeSettings, t: FlumeSite)
    requires in_bounds { 32 ≤ length room.old }
    requires small { Small (level_settings g) (level_site t) }
    ensures { room.new ≡ sets room.old 12 (section 4 (i32_of g.p ∷ i32_of g.gx ∷ i32_of g.gz ∷ i32_of t.edge ∷ [])) }
{
    put_count(room, 12, 4);
    put_setting(room, 16, g.p);
    put_setting(room, 20, g.gx);
    put_setting(room, 24, g.gz);
    put_setting(room, 28, t.edge);
}

fn put_origin(room: &mut [u8], t: FlumeSite)
    requires { 52 ≤ length room.old }
    ensures { room.new ≡ sets room.old 32 (section 2 (i64_of t.x ∷ i64_of t.z ∷ [])) }
{
    put_count(room, 32, 2);
    put_i64(room, 36, t.x);
    put_i64(room, 44, t.z);
}

fn put_carry(room: &mut [u8], carry: i64)
    requires { 64 ≤ length room.old }
    ensures { room.new ≡ sets room.old 52 (section 1 (i64_of carry ∷ [])) }
{
    put_count(room, 52, 1);
    put_i64(room, 56, carry);
}

// The first 64 bytes.
pub fn put_head(room: &mut [u8], s: FlumeSides, g: FlumeSettings, t: FlumeSite, carry: i64)
    requires in_bounds { 64 ≤ length room.old }
    requires s_value { flume_sides_good s ≡ true }
    requires small { Small (level_settings g) (level_site t) }
    ensures { room.new ≡ sets room.old 0 (flume_head_bytes s g t carry) }
{
    put_sides(room, s);
    put_settings(room, g, t);
    put_origin(room, t);
    put_carry(room, carry);
}
