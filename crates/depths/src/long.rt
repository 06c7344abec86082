// How long the text of a depth map is.
ghost use Rattle.std.specs.Prelude.{◌≡◌, [], ◌<◌, nat_abs, length};
ghost use Rattle.depths.specs.Map.{header_text, depth_at, row_text, rows_text, map_text};
ghost use Rattle.depths.specs.inner.Asks.{Measured};

use crate::Corner;
use crate::depth::depth;
use grid::Sides;
use spelling::spell::{metres_length, whole_length, width};
use whole::magnitude;

// Six lines: their keywords, spaces and ends, -9999, and five numbers.
fn header_length(s: Sides, t: Corner) -> usize
    ensures { result ≡ length (header_text s t []) }
{
    let sides = width(s.nx as u64) + width(s.ny as u64);
    let corner = metres_length(t.x) + metres_length(t.y);
    65 + sides + corner + metres_length(t.edge)
}

// A row: its values, and a byte behind each.
fn row_length(s: Sides, edge: u64, flags: &[u8], fills: &[u32], y: usize) -> usize
    requires measured { Measured s edge flags.now fills.now }
    requires y_lt_ny { y < s.ny }
    ensures { result ≡ length (row_text (λ x. depth_at s edge flags.now fills.now x y) 0 s.nx) }
{
    let nx = s.nx;
    let mut long = 0;
    for x in 0..nx {
        long += whole_length(depth(s, edge, flags, fills, x, y)) + 1;
    }
    long
}

fn rows_length(s: Sides, edge: u64, flags: &[u8], fills: &[u32]) -> usize
    requires { Measured s edge flags.now fills.now }
    ensures { result ≡ length (rows_text (depth_at s edge flags.now fills.now) s.nx s.ny) }
{
    let mut long = 0;
    for y in (0..s.ny).rev() {
        long += row_length(s, edge, flags, fills, y);
    }
    long
}

pub fn map_length(s: Sides, t: Corner, flags: &[u8], fills: &[u32]) -> usize
    requires { Measured s (nat_abs t.edge) flags.now fills.now }
    ensures { result ≡ length (map_text s t flags.now fills.now) }
{
    let rows = rows_length(s, magnitude(t.edge), flags, fills);
    header_length(s, t) + rows
}
