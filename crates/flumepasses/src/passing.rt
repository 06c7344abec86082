// Pass 1 of the flume: stages 1 to 4 of every cell, and the marks that stage 5 makes of it.
ghost use Rattle.flumepasses.specs.inner.Flowed.{FlumeFlowable, FlumeFlowed};

use flow::relaxing::keeping;
use flow::trading::new_mark;
use flume::FlumeSides;
use flumeflow::{moving, streaming, trading};
use flumegrid::neighbours;
use grid::kinds;
use lattice::Settings;
use passes::passing::{Found, skip_dry};

pub fn flowing9(
    flags: &[u8],
    parts: &[i32],
    masses: &[i32],
    fills: &[u32],
    flags2: &[u8],
    parts2: &mut [i32],
    masses2: &mut [i32],
    marks: &mut [u8],
    s: FlumeSides,
    g: Settings,
) -> Result<Found, usize>
    requires { FlumeFlowable s g flags.now parts.now masses.now fills.now flags2.now parts2.old masses2.old marks.old }
    ensures { FlumeFlowed s g flags.now parts.now masses.now fills.now result parts2.new masses2.new marks.new }
{
    let off = neighbours::offsets(s);
    let low = neighbours::low_of(s);
    let from = streaming::sources9(off, low);
    let keep = keeping(g);
    let mut fair = true;
    let mut calm = true;
    let mut c = 0;
    // It goes on where the dry cells end: no range says that.
    while c < flags.len() {
        if kinds::either_liquid(flags, flags2, c) {
            let Some(o) = moving::put_parts9(
                flags, parts, fills, parts2, marks[c], &off, &from, low, c, g, keep,
            ) else {
                return Err(c);
            };
            let m = trading::new_mass9(flags, parts, masses, fills, &off, low, c, o.rho);
            let k = new_mark(flags[c], m, o.rho);
            masses2[c] = m;
            marks[c] = k;
            fair = fair & o.fair;
            calm = calm & (k == 0);
            c += 1;
        } else {
            c = skip_dry(flags, flags2, masses2, marks, c);
        }
    }
    Ok(Found { fair, calm })
}
