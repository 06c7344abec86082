// What sections 1 to 3 give: sides, settings and site of a record; and tests 1, 2 and 3.
ghost use Rattle.std.specs.Prelude.{◌≡◌, ◌+◌, ◌≤◌, length};
ghost use Rattle.lattice.specs.Cell.{edge_good, coordinate_good};
ghost use Rattle.grid.specs.Grid.{sides_good};
ghost use Rattle.grid.specs.Outcome.{or_refuse};
ghost use Rattle.grid.specs.Answer.{Done};
ghost use Rattle.grid.specs.declared.refusals.Refusal.TheVariants.{BadSides, BadLength};
ghost use Rattle.record.specs.Bytes.{u32_at, i32_at};
ghost use Rattle.record.specs.Layout.{site_good};
ghost use Rattle.record.specs.Reading.{sides_in, settings_in, site_in, cells_in, whole, slices_of, slices_fit};

use crate::Site;
use crate::number::{i32_at, i64_at, u32_at};
use crate::section::section;
use grid::Sides;
use grid::extent::{cells, good_sides};
use grid::refusals::{Answer, Refusal};
use lattice::Settings;
use lattice::limits::good_settings;
use whole::wide;

pub fn side_at(rec: &[u8], at: usize) -> usize
    requires { at + 4 ≤ length rec.now }
    ensures { result ≡ u32_at rec.now at }
{
    u32_at(rec, at) as usize
}

pub fn setting_at(rec: &[u8], at: usize) -> i64
    requires { at + 4 ≤ length rec.now }
    ensures { result ≡ i32_at rec.now at }
{
    wide(i32_at(rec, at))
}

pub fn sides_in(rec: &[u8]) -> Sides
    requires { 16 ≤ length rec.now }
    ensures { result ≡ sides_in rec.now }
{
    let x = side_at(rec, 4);
    let y = side_at(rec, 8);
    let z = side_at(rec, 12);
    Sides {
        nx: x,
        ny: y,
        nz: z,
    }
}

pub fn settings_in(rec: &[u8]) -> Settings
    requires { 40 ≤ length rec.now }
    ensures { result ≡ settings_in rec.now }
{
    let p = setting_at(rec, 20);
    let x = setting_at(rec, 24);
    let y = setting_at(rec, 28);
    let z = setting_at(rec, 32);
    Settings {
        p: p,
        gx: x,
        gy: y,
        gz: z,
        turbulent: false,
    }
}

pub fn site_in(rec: &[u8]) -> Site
    requires { 68 ≤ length rec.now }
    ensures { result ≡ site_in rec.now }
{
    let edge = setting_at(rec, 36);
    let x = i64_at(rec, 44);
    let y = i64_at(rec, 52);
    let z = i64_at(rec, 60);
    Site {
        edge: edge,
        x: x,
        y: y,
        z: z,
    }
}

fn good_edge(edge: i64) -> bool
    ensures { result ≡ edge_good edge }
{
    (1 <= edge) & (edge <= 1000)
}

fn good_coordinate(a: i64) -> bool
    ensures { result ≡ coordinate_good a }
{
    (-10000000000 <= a) & (a <= 10000000000)
}

// Test 3 of a record.
pub fn good_site(g: Settings, t: Site) -> bool
    ensures { result ≡ site_good g t }
{
    good_settings(g)
        & good_edge(t.edge)
        & good_coordinate(t.x)
        & good_coordinate(t.y)
        & good_coordinate(t.z)
}

// Test 2 of n cells with w parts each, and k numbers in the carry's slice.
pub fn slices_fit(
    w: usize,
    k: usize,
    n: usize,
    parts: usize,
    masses: usize,
    fills: usize,
    carry: usize,
) -> bool
    requires w_bound { w ≤ 19 }
    requires n_bound { n ≤ 262144 }
    ensures { result ≡ slices_of w k n parts masses fills carry }
{
    (parts == w * n) & (masses == n) & (fills == n) & (carry == k)
}

// Section 1, then tests 1 and 2.
pub fn opening(rec: &[u8], parts: usize, masses: usize, fills: usize, carry: usize) -> Answer
    ensures { result ≡ whole rec.now 1 0 3 4 (or_refuse (sides_good (sides_in rec.now)) BadSides (or_refuse (slices_fit (cells_in rec.now) parts masses fills carry) BadLength Done)) }
{
    section(rec, 1, 0, 3, 4)?;
    let s = sides_in(rec);
    if !good_sides(s) {
        return Err(Refusal::BadSides);
    }
    if !slices_fit(19, 3, cells(s), parts, masses, fills, carry) {
        return Err(Refusal::BadLength);
    }
    Ok(())
}
