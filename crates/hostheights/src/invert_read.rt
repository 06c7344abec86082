// The reader of an invert.
ghost use Rattle.std.specs.Prelude.{◌≡◌};
ghost use Rattle.grid.specs.State.{lent};
ghost use Rattle.index.specs.Index.{index};
ghost use Rattle.host.specs.Given.{settings_of};
ghost use Rattle.hostheights.specs.Invert.{InvertTold};

use grid::Sides;
use host::answers::{number_of, place_of};
use invert::reader;
use lattice::Settings;
use record::Site;

fn put_sides(s: Sides, nx: &mut usize, ny: &mut usize)
    ensures { (nx.new ≡ s.nx) × (ny.new ≡ s.ny) }
{
    *nx = s.nx;
    *ny = s.ny;
}

fn put_site(t: Site, edge: &mut i64, ox: &mut i64, oy: &mut i64)
    ensures { (edge.new ≡ t.edge) × (ox.new ≡ t.x) × (oy.new ≡ t.y) }
{
    let e = t.edge;
    let x = t.x;
    let y = t.y;
    *edge = e;
    *ox = x;
    *oy = y;
}

// Reads a height grid into a lent set and its index: the walls below the heights, and no water. Answered is what the host did not give.
#[unsafe(no_mangle)]
pub extern "C" fn skw_invert_read(
    text: &[u8],
    nz: usize,
    oz: i64,
    p: i64,
    gx: i64,
    gy: i64,
    gz: i64,
    flags: &mut [u8],
    parts: &mut [i32],
    masses: &mut [i32],
    fills: &mut [u32],
    carry: &mut [i64],
    words: &mut [u64],
    count: &mut [u64],
    nx: &mut usize,
    ny: &mut usize,
    edge: &mut i64,
    ox: &mut i64,
    oy: &mut i64,
    place: &mut usize,
) -> u8
    ensures { InvertTold text.now nz oz (settings_of p gx gy gz) (lent flags.old parts.old masses.old fills.old carry.old) (index words.old count.old) result place.new nx.new ny.new edge.new ox.new oy.new (lent flags.new parts.new masses.new fills.new carry.new) (index words.new count.new) }
{
    let g = Settings {
        p,
        gx,
        gy,
        gz,
        turbulent: false,
    };
    let h = reader::read(
        text, nz, oz, g, flags, parts, masses, fills, carry, words, count,
    );
    let s = h.sides;
    let t = h.site;
    let a = h.answer;
    put_sides(s, nx, ny);
    put_site(t, edge, ox, oy);
    *place = place_of(a);
    number_of(a)
}
