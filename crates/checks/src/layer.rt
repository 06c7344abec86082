// Test 4: no flag is above 3, and the outer layer is all wall.
ghost use Rattle.std.specs.Prelude.{◌≡◌, true, not, ◌&&◌, ◌||◌, ◌<◌, ltb, eqb, length, get_or};
ghost use Rattle.grid.specs.Grid.{sides_good, cells_of, grid_of};
ghost use Rattle.grid.specs.Good.{bad_flag};
ghost use Rattle.grid.specs.inner.Passes.{Of, place_after, outer_at, RowAt, FirstInRow};

use grid::{Place, Sides};

// The coordinates of the next cell.
fn after(p: Place, s: Sides) -> Place
    requires { (sides_good s ≡ true) × Of s p }
    ensures { result ≡ place_after s p }
{
    if p.x + 1 < s.nx {
        return Place {
            x: p.x + 1,
            y: p.y,
            z: p.z,
        };
    }
    if p.y + 1 < s.ny {
        return Place {
            x: 0,
            y: p.y + 1,
            z: p.z,
        };
    }
    Place {
        x: 0,
        y: 0,
        z: p.z + 1,
    }
}

fn outer(p: Place, s: Sides) -> bool
    requires { (sides_good s ≡ true) × Of s p }
    ensures { result ≡ outer_at s p }
{
    (p.x == 0)
        | (p.x + 1 == s.nx)
        | ((p.y == 0) | (p.y + 1 == s.ny))
        | ((p.z == 0) | (p.z + 1 == s.nz))
}

fn bad_flag(f: u8, p: Place, s: Sides) -> bool
    requires { (sides_good s ≡ true) × Of s p }
    ensures { result ≡ not (ltb f 4 && (not (outer_at s p) || eqb f 3)) }
{
    if f > 3 {
        return true;
    }
    (f != 3) & outer(p, s)
}

// The first cell of the row at c whose flag is above 3, or that is outer and not wall; nx if there is none.
fn first_in_row(flags: &[u8], c: usize, p: Place, s: Sides) -> usize
    requires { (sides_good s ≡ true) × (length flags.now ≡ cells_of s) × (c < length flags.now) × RowAt s c p }
    ensures { FirstInRow s flags.now c result }
{
    for x in 0..s.nx {
        let q = Place {
            x: x,
            y: p.y,
            z: p.z,
        };
        if bad_flag(flags[c + x], q, s) {
            return x;
        }
    }
    s.nx
}

// The lowest cell whose flag is above 3, or that is outer and not wall; N if there is none. Row by row: where a row lies is asked once.
pub fn first_bad_flag(flags: &[u8], s: Sides) -> usize
    requires { (sides_good s ≡ true) × (length flags.now ≡ cells_of s) }
    ensures { result ≡ bad_flag (grid_of s) (λ c. get_or flags.now c 3) }
{
    let mut p = Place { x: 0, y: 0, z: 0 };
    let mut c = 0;
    // A row at a time, c and p together: no range says that.
    while c < flags.len() {
        let x = first_in_row(flags, c, p, s);
        if x < s.nx {
            return c + x;
        }
        let q = Place {
            x: s.nx - 1,
            y: p.y,
            z: p.z,
        };
        p = after(q, s);
        c += s.nx;
    }
    c
}
