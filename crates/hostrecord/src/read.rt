// The reader.
ghost use Rattle.std.specs.Prelude.{◌≡◌, []};
ghost use Rattle.grid.specs.State.{lent};
ghost use Rattle.record.specs.Layout.{recorded};
ghost use Rattle.index.specs.Index.{index};
ghost use Rattle.index.specs.Held.{held};
ghost use Rattle.host.specs.Given.{sides_of, settings_of};
ghost use Rattle.hostrecord.specs.Promise.{site_of, ReadTold};

use grid::Sides;
use host::answers::{number_of, place_of};
use intake::reader;
use lattice::Settings;
use record::{Site, flags};

fn put_sides(s: Sides, nx: &mut usize, ny: &mut usize, nz: &mut usize)
    ensures { sides_of nx.new ny.new nz.new ≡ s }
{
    *nx = s.nx;
    *ny = s.ny;
    *nz = s.nz;
}

fn put_settings(g: Settings, p: &mut i64, gx: &mut i64, gy: &mut i64, gz: &mut i64)
    ensures { settings_of p.new gx.new gy.new gz.new ≡ recorded g }
{
    let relaxation = g.p;
    let x = g.gx;
    let y = g.gy;
    let z = g.gz;
    *p = relaxation;
    *gx = x;
    *gy = y;
    *gz = z;
}

fn put_site(t: Site, edge: &mut i64, ox: &mut i64, oy: &mut i64, oz: &mut i64)
    ensures { site_of edge.new ox.new oy.new oz.new ≡ t }
{
    let e = t.edge;
    let x = t.x;
    let y = t.y;
    let z = t.z;
    *edge = e;
    *ox = x;
    *oy = y;
    *oz = z;
}

// Reads a record into the lent slices and makes the index of its flags. The flag section stands in the caller's own record bytes, from `flags_from` to before `flags_to`.
#[unsafe(no_mangle)]
pub extern "C" fn skw_read(
    rec: &[u8],
    parts: &mut [i32],
    masses: &mut [i32],
    fills: &mut [u32],
    carry: &mut [i64],
    words: &mut [u64],
    count: &mut [u64],
    nx: &mut usize,
    ny: &mut usize,
    nz: &mut usize,
    p: &mut i64,
    gx: &mut i64,
    gy: &mut i64,
    gz: &mut i64,
    edge: &mut i64,
    ox: &mut i64,
    oy: &mut i64,
    oz: &mut i64,
    flags_from: &mut usize,
    flags_to: &mut usize,
    place: &mut usize,
) -> u8
    ensures { ReadTold rec.now (held (lent [] parts.old masses.old fills.old carry.old) (index words.old count.old)) result place.new (sides_of nx.new ny.new nz.new) (settings_of p.new gx.new gy.new gz.new) (site_of edge.new ox.new oy.new oz.new) flags_from.new flags_to.new parts.new masses.new fills.new carry.new (index words.new count.new) }
{
    let h = reader::read(rec, parts, masses, fills, carry, words, count);
    let s = h.sides;
    let g = h.settings;
    let t = h.site;
    let a = h.answer;
    let f = flags::span(rec, h);
    put_sides(s, nx, ny, nz);
    put_settings(g, p, gx, gy, gz);
    put_site(t, edge, ox, oy, oz);
    *flags_from = f.from;
    *flags_to = f.to;
    *place = place_of(a);
    number_of(a)
}
