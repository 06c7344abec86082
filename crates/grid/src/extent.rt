// Test 1: the sides of a grid and their product.
ghost use Rattle.std.specs.Prelude.{◌≡◌, true};
ghost use Rattle.grid.specs.Grid.{side_good, sides_good, cells_of};

use crate::Sides;

fn good_side(n: usize) -> bool
    ensures { result ≡ side_good n }
{
    (3 <= n) & (n <= 128)
}

// Whether each side is 3 to 128 and the product at most 262,144.
pub fn good_sides(s: Sides) -> bool
    ensures { result ≡ sides_good s }
{
    if !good_side(s.nx) {
        return false;
    }
    if !good_side(s.ny) {
        return false;
    }
    if !good_side(s.nz) {
        return false;
    }
    s.nx * (s.ny * s.nz) <= 262144
}

// N, the number of cells of good sides.
pub fn cells(s: Sides) -> usize
    requires { sides_good s ≡ true }
    ensures { result ≡ cells_of s }
{
    s.nx * (s.ny * s.nz)
}
