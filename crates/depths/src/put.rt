// The text of a depth map, stored from the front of a room that suffices.
ghost use Rattle.std.specs.Prelude.{◌≡◌, [], ◌∷◌, ◌++◌, ◌+◌, ◌≤◌, ◌<◌, nat_abs, length};
ghost use Rattle.std.proofs.lemmas.List.Edits.{sets};
ghost use Rattle.spelling.specs.Spelling.{spell_of, whole_of, metres_of};
ghost use Rattle.spelling.specs.inner.Put.{Put};
ghost use Rattle.depths.specs.Map.{header_text, depth_at, behind, row_text, rows_text, map_text};
ghost use Rattle.depths.specs.inner.Asks.{Measured};

use crate::Corner;
use crate::depth::depth;
use grid::Sides;
use spelling::spell::{put_byte, put_bytes, put_metres, put_number, put_whole};
use whole::magnitude;

// A header line with a number of cells; the keyword has its space behind it.
fn put_cells(room: &mut [u8], at: usize, key: &[u8], n: usize) -> usize
    requires { at + length (key.now ++ (spell_of n ++ 10 ∷ [])) ≤ length room.old }
    ensures { Put room.old at (key.now ++ (spell_of n ++ 10 ∷ [])) room.new result }
{
    let p = put_bytes(room, at, key);
    let q = put_number(room, p, n as u64);
    put_byte(room, q, 10)
}

// A header line with a length in metres.
fn put_length(room: &mut [u8], at: usize, key: &[u8], z: i64) -> usize
    requires { at + length (key.now ++ (metres_of z ++ 10 ∷ [])) ≤ length room.old }
    ensures { Put room.old at (key.now ++ (metres_of z ++ 10 ∷ [])) room.new result }
{
    let p = put_bytes(room, at, key);
    let q = put_metres(room, p, z);
    put_byte(room, q, 10)
}

// The six lines before the rows.
fn put_header(room: &mut [u8], s: Sides, t: Corner) -> usize
    requires { length (header_text s t []) ≤ length room.old }
    ensures { Put room.old 0 (header_text s t []) room.new result }
{
    let a = put_cells(room, 0, b"ncols ", s.nx);
    let b = put_cells(room, a, b"nrows ", s.ny);
    let c = put_length(room, b, b"xllcorner ", t.x);
    let d = put_length(room, c, b"yllcorner ", t.y);
    let e = put_length(room, d, b"cellsize ", t.edge);
    put_bytes(room, e, b"NODATA_value -9999\n")
}

// What stands behind a value when n more follow it in its row.
fn parting(n: usize) -> u8
    ensures { result ≡ behind n }
{
    if n == 0 {
        return 10;
    }
    32
}

fn put_value(room: &mut [u8], at: usize, v: i64, n: usize) -> usize
    requires { at + length (whole_of v ++ behind n ∷ []) ≤ length room.old }
    ensures { Put room.old at (whole_of v ++ behind n ∷ []) room.new result }
{
    let p = put_whole(room, at, v);
    put_byte(room, p, parting(n))
}

fn put_row(
    room: &mut [u8],
    at: usize,
    s: Sides,
    edge: u64,
    flags: &[u8],
    fills: &[u32],
    y: usize,
) -> usize
    requires measured { Measured s edge flags.now fills.now }
    requires y_lt_ny { y < s.ny }
    requires nx_in_bounds { at + length (row_text (λ x. depth_at s edge flags.now fills.now x y) 0 s.nx) ≤ length room.old }
    ensures { Put room.old at (row_text (λ x. depth_at s edge flags.now fills.now x y) 0 s.nx) room.new result }
{
    let nx = s.nx;
    let mut p = at;
    for x in 0..nx {
        let v = depth(s, edge, flags, fills, x, y);
        p = put_value(room, p, v, nx - (x + 1));
    }
    p
}

// From the north: the highest y first.
fn put_rows(room: &mut [u8], at: usize, s: Sides, edge: u64, flags: &[u8], fills: &[u32]) -> usize
    requires measured { Measured s edge flags.now fills.now }
    requires ny_in_bounds { at + length (rows_text (depth_at s edge flags.now fills.now) s.nx s.ny) ≤ length room.old }
    ensures { Put room.old at (rows_text (depth_at s edge flags.now fills.now) s.nx s.ny) room.new result }
{
    let mut p = at;
    for y in (0..s.ny).rev() {
        p = put_row(room, p, s, edge, flags, fills, y);
    }
    p
}

pub fn put_map(room: &mut [u8], s: Sides, t: Corner, flags: &[u8], fills: &[u32])
    requires measured { Measured s (nat_abs t.edge) flags.now fills.now }
    requires fills_in_bounds { length (map_text s t flags.now fills.now) ≤ length room.old }
    ensures { room.new ≡ sets room.old 0 (map_text s t flags.now fills.now) }
{
    let p = put_header(room, s, t);
    let edge = magnitude(t.edge);
    put_rows(room, p, s, edge, flags, fills);
}
