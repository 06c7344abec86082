// What sections 1 to 3 give: sides, settings and site of a flume's record; and tests 1, 2 and 3.
ghost use Rattle.std.specs.Prelude.{◌≡◌, ◌≤◌, length};
ghost use Rattle.grid.specs.Answer.{Done};
ghost use Rattle.flume.specs.Flume.{flume_sides_good};
ghost use Rattle.record.specs.Reading.{opens_on};
ghost use Rattle.flumerecord.specs.Layout.{flume_counts, flume_site_good};
ghost use Rattle.flumerecord.specs.Reading.{flume_sides_in, flume_settings_in, flume_site_in, flume_cells_in, flume_slices_fit};

use crate::FlumeSite;
use flume::extent::{cells, good_sides};
use flume::{FlumeSettings, FlumeSides};
use grid::refusals::{Answer, Refusal};
use lattice::Settings;
use record::Site;
use record::given::{setting_at, side_at, slices_fit};
use record::number::i64_at;
use record::section::section;

pub fn sides_in(rec: &[u8]) -> FlumeSides
    requires { 12 ≤ length rec.now }
    ensures { result ≡ flume_sides_in rec.now }
{
    let x = side_at(rec, 4);
    let z = side_at(rec, 8);
    FlumeSides { nx: x, nz: z }
}

pub fn settings_in(rec: &[u8]) -> FlumeSettings
    requires { 32 ≤ length rec.now }
    ensures { result ≡ flume_settings_in rec.now }
{
    let p = setting_at(rec, 16);
    let x = setting_at(rec, 20);
    let z = setting_at(rec, 24);
    FlumeSettings {
        p: p,
        gx: x,
        gz: z,
        turbulent: false,
    }
}

pub fn site_in(rec: &[u8]) -> FlumeSite
    requires { 52 ≤ length rec.now }
    ensures { result ≡ flume_site_in rec.now }
{
    let edge = setting_at(rec, 28);
    let x = i64_at(rec, 36);
    let z = i64_at(rec, 44);
    FlumeSite {
        edge: edge,
        x: x,
        z: z,
    }
}

// Test 3 of a flume's record: the box's, with no y.
pub fn good_site(g: FlumeSettings, t: FlumeSite) -> bool
    ensures { result ≡ flume_site_good g t }
{
    let settings = Settings {
        p: g.p,
        gx: g.gx,
        gy: 0,
        gz: g.gz,
        turbulent: g.turbulent,
    };
    let site = Site {
        edge: t.edge,
        x: t.x,
        y: 0,
        z: t.z,
    };
    record::given::good_site(settings, site)
}

// Section 1, then tests 1 and 2.
pub fn opening(rec: &[u8], parts: usize, masses: usize, fills: usize, carry: usize) -> Answer
    ensures { result ≡ opens_on rec.now flume_counts (flume_sides_good (flume_sides_in rec.now)) (flume_slices_fit (flume_cells_in rec.now) parts masses fills carry) Done }
{
    section(rec, 1, 0, 2, 4)?;
    let s = sides_in(rec);
    if !good_sides(s) {
        return Err(Refusal::BadSides);
    }
    if !slices_fit(9, 1, cells(s), parts, masses, fills, carry) {
        return Err(Refusal::BadLength);
    }
    Ok(())
}
