// The reader.
ghost use Rattle.std.specs.Prelude.{◌≡◌, []};
ghost use Rattle.grid.specs.State.{lent};
ghost use Rattle.flumerecord.specs.Layout.{flume_recorded};
ghost use Rattle.hostflumerecord.specs.Promise.{flume_sides_of, flume_settings_of, flume_site_of, FlumeReadTold};

use flume::{FlumeSettings, FlumeSides};
use flumereading::reader;
use flumerecord::{FlumeSite, flags};
use host::answers::{number_of, place_of};

fn put_sides(s: FlumeSides, nx: &mut usize, nz: &mut usize)
    ensures { flume_sides_of nx.new nz.new ≡ s }
{
    *nx = s.nx;
    *nz = s.nz;
}

fn put_settings(g: FlumeSettings, p: &mut i64, gx: &mut i64, gz: &mut i64)
    ensures { flume_settings_of p.new gx.new gz.new ≡ flume_recorded g }
{
    let relaxation = g.p;
    let x = g.gx;
    let z = g.gz;
    *p = relaxation;
    *gx = x;
    *gz = z;
}

fn put_site(t: FlumeSite, edge: &mut i64, ox: &mut i64, oz: &mut i64)
    ensures { flume_site_of edge.new ox.new oz.new ≡ t }
{
    let e = t.edge;
    let x = t.x;
    let z = t.z;
    *edge = e;
    *ox = x;
    *oz = z;
}

// Reads a flume's record into the lent slices. The flag section stands in the caller's own record bytes, from `flags_from` to before `flags_to`.
#[unsafe(no_mangle)]
pub extern "C" fn skw_flume_read(
    rec: &[u8],
    parts: &mut [i32],
    masses: &mut [i32],
    fills: &mut [u32],
    carry: &mut [i64],
    nx: &mut usize,
    nz: &mut usize,
    p: &mut i64,
    gx: &mut i64,
    gz: &mut i64,
    edge: &mut i64,
    ox: &mut i64,
    oz: &mut i64,
    flags_from: &mut usize,
    flags_to: &mut usize,
    place: &mut usize,
) -> u8
    ensures { FlumeReadTold rec.now (lent [] parts.old masses.old fills.old carry.old) result place.new (flume_sides_of nx.new nz.new) (flume_settings_of p.new gx.new gz.new) (flume_site_of edge.new ox.new oz.new) flags_from.new flags_to.new parts.new masses.new fills.new carry.new }
{
    let h = reader::read(rec, parts, masses, fills, carry);
    let s = h.sides;
    let g = h.settings;
    let t = h.site;
    let a = h.answer;
    let f = flags::span(rec, h);
    put_sides(s, nx, nz);
    put_settings(g, p, gx, gz);
    put_site(t, edge, ox, oz);
    *flags_from = f.from;
    *flags_to = f.to;
    *place = place_of(a);
    number_of(a)
}
