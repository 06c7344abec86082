// Stage 6: what converted cells give to the interface cells beside them.
ghost use Rattle.std.specs.Prelude.{◌≡◌, true, ◌<◌, ◌-◌, length, get_or};
ghost use Rattle.whole.specs.Fold.{tab, Dir, any_dir};
ghost use Rattle.grid.specs.Grid.{cells_of};
ghost use Rattle.grid.specs.inner.Passes.{low_of, offset_of};
ghost use Rattle.grid.specs.State.{part_of};
ghost use Rattle.excess.specs.inner.Gifts.{RoomOf, Near, marked_at, Weighed, Giver, Giving, Gathering, target_at, excess_at, gift_at, gift_from, received_at, gathered_at};

use crate::leaning::used_weights;
use grid::Sides;
use grid::cells::own;
use grid::neighbours::{low_of, offsets};
use lattice::directions::opposite;
use lattice::moments::density;
use surface::excess::given;
use walks::seeking::next_of;
use whole::wide;

// The excess of cell c with mark m: mass less density for a filled cell, the mass for an emptied one.
pub(crate) fn excess(parts: &[i32], masses: &[i32], m: u8, c: usize) -> i64
    requires { Weighed (RoomOf parts.now) (part_of parts.now) masses.now c }
    ensures { result ≡ excess_at (part_of parts.now) masses.now m c }
{
    if m == 1 {
        return wide(masses[c]) - wide(density(own(parts, c)));
    }
    wide(masses[c])
}

// What cell c with mark m gives towards direction i, where it has a target.
fn gift(
    flags: &[u8],
    fills: &[u32],
    parts: &[i32],
    masses: &[i32],
    off: &[usize; 19],
    low: usize,
    c: usize,
    m: u8,
    i: usize,
) -> i64
    requires { Giver flags.now fills.now (RoomOf parts.now) (part_of parts.now) masses.now off.now low c × Dir 18 i × (target_at flags.now off.now (c - low) i ≡ true) }
    ensures { result ≡ gift_at flags.now fills.now (part_of parts.now) masses.now off.now low c m i }
{
    let w = used_weights(flags, fills, off, c - low, m);
    given(excess(parts, masses, m, c), w, i)
}

// What cell b gives towards direction i: nothing, where it is not marked.
fn gift_from(
    flags: &[u8],
    fills: &[u32],
    parts: &[i32],
    masses: &[i32],
    marks: &[u8],
    off: &[usize; 19],
    low: usize,
    b: usize,
    i: usize,
) -> i64
    requires { (b < length marks.now) × Dir 18 i × ((get_or marks.now b 0 ≡ 0 → ⊥) → Giver flags.now fills.now (RoomOf parts.now) (part_of parts.now) masses.now off.now low b × (target_at flags.now off.now (b - low) i ≡ true)) }
    ensures { result ≡ gift_from flags.now fills.now (part_of parts.now) masses.now marks.now off.now low b i }
{
    let m = marks[b];
    if m == 0 {
        return 0;
    }
    gift(flags, fills, parts, masses, off, low, b, m, i)
}

// Whether a neighbour is marked; k is c - low. With no way out, as beside most cells none is.
pub fn marked_beside(marks: &[u8], off: &[usize; 19], k: usize) -> bool
    requires { Near (length marks.now) off.now k }
    ensures { result ≡ any_dir 18 (marked_at marks.now off.now k) }
{
    let mut found = false;
    for i in 1..19 {
        found = found | (marks[k + off[i]] != 0);
    }
    found
}

// What the neighbours give to cell c, added up.
fn all_gifts(
    flags: &[u8],
    fills: &[u32],
    parts: &[i32],
    masses: &[i32],
    marks: &[u8],
    off: &[usize; 19],
    low: usize,
    c: usize,
) -> i64
    requires { Giving flags.now fills.now (RoomOf parts.now) (part_of parts.now) masses.now marks.now off.now low × (c < length flags.now) × (get_or flags.now c 0 ≡ 1) }
    ensures { result ≡ received_at flags.now fills.now (part_of parts.now) masses.now marks.now off.now low c }
{
    let k = c - low;
    let mut t: i64 = 0;
    for i in 1..19 {
        t += gift_from(
            flags,
            fills,
            parts,
            masses,
            marks,
            off,
            low,
            k + off[i],
            opposite(i),
        );
    }
    t
}

// What the neighbours give to cell c.
fn gifts(
    flags: &[u8],
    fills: &[u32],
    parts: &[i32],
    masses: &[i32],
    marks: &[u8],
    off: &[usize; 19],
    low: usize,
    c: usize,
) -> i64
    requires { Giving flags.now fills.now (RoomOf parts.now) (part_of parts.now) masses.now marks.now off.now low × (c < length flags.now) × (get_or flags.now c 0 ≡ 1) }
    ensures { result ≡ received_at flags.now fills.now (part_of parts.now) masses.now marks.now off.now low c }
{
    if !marked_beside(marks, off, c - low) {
        return 0;
    }
    all_gifts(flags, fills, parts, masses, marks, off, low, c)
}

// Pass 6: each interface cell takes what its converted neighbours give. It reads masses of converted cells and writes others.
pub fn gather(
    flags: &[u8],
    fills: &[u32],
    parts: &[i32],
    masses: &mut [i32],
    marks: &[u8],
    s: Sides,
)
    requires { Gathering s flags.now fills.now parts.now masses.old marks.now }
    ensures { masses.new ≡ tab (cells_of s) (gathered_at flags.now fills.now (part_of parts.now) masses.old marks.now (tab 19 (offset_of s)) (low_of s)) }
{
    let off = offsets(s);
    let low = low_of(s);
    let mut c = 0;
    // On to the next interface cell, which only the search tells: no range says that.
    while c < flags.len() {
        if flags[c] == 1 {
            let t = gifts(flags, fills, parts, masses, marks, &off, low, c);
            masses[c] = (wide(masses[c]) + t) as i32;
        }
        c = next_of(flags, c + 1, 1);
    }
}
