// Pass 1: stages 1 to 4 of every cell, and the marks that stage 5 makes of it.
ghost use Rattle.std.specs.Prelude.{◌≤◌, pos, length};
ghost use Rattle.passes.specs.inner.Flowed.{Flowable, Flowed};
ghost use Rattle.passes.specs.inner.Stretch.{Cleared};
ghost use Rattle.passes.specs.inner.Skipped.{Skippable, Skipped};

use crate::marks;
use flow::{moving, relaxing, streaming, trading};
use grid::{Sides, kinds, neighbours};
use lattice::Settings;
use walks::seeking;

// What pass 1 finds where no cell stops it: whether every new part keeps test 6's rules, and whether nothing converts.
#[derive(Clone, Copy)]
pub struct Found {
    pub fair: bool,
    pub calm: bool,
}

// Cells a to b - 1 get no mass.
fn unload(masses2: &mut [i32], a: usize, b: usize)
    requires { (a ≤ b) × (b ≤ length masses2.old) }
    ensures { Cleared (pos 0) a b masses2.old masses2.new }
{
    masses2[a..b].fill(0);
}

// Neither mass nor mark in cell c, which is dry in both sets and so has no parts already, and in those after it that are so too; the next cell that is not.
pub fn skip_dry(
    flags: &[u8],
    flags2: &[u8],
    masses2: &mut [i32],
    marks: &mut [u8],
    c: usize,
) -> usize
    requires { Skippable flags.now flags2.now masses2.old marks.old c }
    ensures { Skipped flags.now flags2.now masses2.old marks.old c result masses2.new marks.new }
{
    let e = seeking::next_wet(flags, flags2, c);
    unload(masses2, c, e);
    marks::unmark(marks, c, e);
    e
}

// Stages 1 to 4 of all cells; or the cell that refusal 7 names.
pub fn flowing(
    flags: &[u8],
    parts: &[i32],
    masses: &[i32],
    fills: &[u32],
    flags2: &[u8],
    parts2: &mut [i32],
    masses2: &mut [i32],
    marks: &mut [u8],
    s: Sides,
    g: Settings,
) -> Result<Found, usize>
    requires { Flowable s g flags.now parts.now masses.now fills.now flags2.now parts2.old masses2.old marks.old }
    ensures { Flowed s g flags.now parts.now masses.now fills.now result parts2.new masses2.new marks.new }
{
    let off = neighbours::offsets(s);
    let low = neighbours::low_of(s);
    let from = streaming::sources(off, low);
    let keep = relaxing::keeping(g);
    let mut fair = true;
    let mut calm = true;
    let mut c = 0;
    // It goes on where the dry cells end: no range says that.
    while c < flags.len() {
        if kinds::either_liquid(flags, flags2, c) {
            let Some(o) = moving::put_parts(
                flags, parts, fills, parts2, marks[c], &off, &from, low, c, g, keep,
            ) else {
                return Err(c);
            };
            let m = trading::new_mass(flags, parts, masses, fills, &off, low, c, o.rho);
            let k = trading::new_mark(flags[c], m, o.rho);
            masses2[c] = m;
            marks[c] = k;
            fair = fair & o.fair;
            calm = calm & (k == 0);
            c += 1;
        } else {
            c = skip_dry(flags, flags2, masses2, marks, c);
        }
    }
    Ok(Found { fair, calm })
}
