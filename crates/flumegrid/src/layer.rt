// Test 4 of a flume: no flag is above 3, and the outer layer is all wall.
ghost use Rattle.std.specs.Prelude.{◌≡◌, true, not, ◌&&◌, ◌||◌, ◌<◌, ltb, eqb, length, get_or};
ghost use Rattle.grid.specs.Good.{bad_flag};
ghost use Rattle.flume.specs.Flume.{flume_sides_good, flume_cells, flume_grid};
ghost use Rattle.flumegrid.specs.inner.Layer.{Within, edge, Row, FirstInRow};

use flume::FlumeSides;

fn outer(x: usize, z: usize, s: FlumeSides) -> bool
    requires { Within s x z }
    ensures { result ≡ edge s x z }
{
    (x == 0) | (x + 1 == s.nx) | ((z == 0) | (z + 1 == s.nz))
}

fn bad_flag(f: u8, x: usize, z: usize, s: FlumeSides) -> bool
    requires { Within s x z }
    ensures { result ≡ not (ltb f 4 && (not (edge s x z) || eqb f 3)) }
{
    if f > 3 {
        return true;
    }
    (f != 3) & outer(x, z, s)
}

// The first cell of row z, which begins at c, whose flag is above 3, or that is outer and not wall; nx if there is none.
fn first_in_row(flags: &[u8], c: usize, z: usize, s: FlumeSides) -> usize
    requires { (flume_sides_good s ≡ true) × (length flags.now ≡ flume_cells s) × Row s c z }
    ensures { FirstInRow s flags.now c result }
{
    for x in 0..s.nx {
        if bad_flag(flags[c + x], x, z, s) {
            return x;
        }
    }
    s.nx
}

// The lowest cell whose flag is above 3, or that is outer and not wall; N if there is none.
pub fn first_bad_flag(flags: &[u8], s: FlumeSides) -> usize
    requires { (flume_sides_good s ≡ true) × (length flags.now ≡ flume_cells s) }
    ensures { result ≡ bad_flag (flume_grid s) (λ c. get_or flags.now c 3) }
{
    let mut c = 0;
    for z in 0..s.nz {
        let x = first_in_row(flags, c, z, s);
        if x < s.nx {
            return c + x;
        }
        c += s.nx;
    }
    c
}
