// What a column holds, and the reading of it: solid, dry, or the exact sum of its fills.
ghost use Rattle.std.specs.Prelude.{◌≡◌, cond, ◌≤◌, ◌<◌, eqb, length, Ok};
ghost use Rattle.whole.specs.Fold.{first};
ghost use Rattle.tunnel.specs.inner.Asks.{InColumn};
ghost use Rattle.columns.specs.inner.Contents.{ContentsAre};
ghost use Rattle.tunnel.specs.Depth.{fill_bad, reading_of, DepthIs};

use grid::Sides;
use tunnel::Depth;
use tunnel::cell::number;
use tunnel::exact::share;

// What a column holds: whether every cell is wall, and the fills of the others added up.
#[derive(Clone, Copy)]
pub struct Contents {
    pub solid: bool,
    pub sum: u32,
}

// A cell's part of the sum: a wall has none.
fn open_fill(flag: u8, fill: u32) -> u32
    ensures { result ≡ cond (eqb flag 3) 0 fill }
{
    if flag == 3 {
        return 0;
    }
    fill
}

// Every cell of the column, from height 0 up.
pub fn summed(s: Sides, flags: &[u8], fills: &[u32], x: usize, y: usize) -> Contents
    requires in_column { InColumn s (length flags.now) x y }
    requires in_column_2 { InColumn s (length fills.now) x y }
    requires nz_bound { s.nz ≤ first s.nz (fill_bad s fills.now x y) }
    ensures { ContentsAre result s flags.now fills.now x y }
{
    let nz = s.nz;
    let mut solid = true;
    let mut sum = 0;
    for z in 0..nz {
        let at = number(s, x, y, z);
        let flag = flags[at];
        solid = solid & (flag == 3);
        sum += open_fill(flag, fills[at]);
    }
    Contents { solid, sum }
}

// Solid, dry, or the sum in cells.
pub(crate) fn reading(solid: bool, sum: u32) -> Depth
    requires { sum < 16777216 }
    ensures { DepthIs (Ok result) (Ok (reading_of solid sum)) }
{
    if solid {
        return Depth::Solid;
    }
    if sum == 0 {
        return Depth::Dry;
    }
    Depth::Deep(share(sum))
}
