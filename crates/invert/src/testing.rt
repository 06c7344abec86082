// What is tested before anything is written: 19, then 1, 2 and 3, then 20.
ghost use Rattle.std.specs.Prelude.{◌≡◌, ◌+◌, ◌≤◌, length};
ghost use Rattle.numerals.specs.Text.{from_line};
ghost use Rattle.heights.specs.Rows.{rows_of};
ghost use Rattle.invert.specs.Outcome.{count_of, sides_of, site_of, set_fits, given_answer, rows_answer, grid_answer, told_head, read_head};

use grid::Sides;
use grid::extent::{cells, good_sides};
use grid::refusals::{Answer, Refusal};
use heights::header::{Frame, read_header};
use heights::rows::test_rows;
use index::words::good_lengths;
use lattice::Settings;
use numerals::text::line_at;
use pumps::entry::three_lengths;
use reading::reader::refused;
use record::given::good_site;
use record::section::passed;
use record::{Head, Site};
use whole::magnitude;

// How long the lent slices are.
#[derive(Clone, Copy)]
pub struct Lengths {
    pub flags: usize,
    pub parts: usize,
    pub masses: usize,
    pub fills: usize,
    pub carry: usize,
    pub words: usize,
    pub count: usize,
}

// A header's number as a count; a negative one is 0, which is out of every range.
pub fn count_of(v: i64) -> usize
    ensures { result ≡ count_of v }
{
    if v < 0 {
        return 0;
    }
    magnitude(v) as usize
}

fn sides_of(f: Frame, nz: usize) -> Sides
    ensures { result ≡ sides_of f nz }
{
    let nx = count_of(f.nx);
    let ny = count_of(f.ny);
    Sides { nx, ny, nz }
}

fn site_of(f: Frame, oz: i64) -> Site
    ensures { result ≡ site_of f oz }
{
    Site {
        edge: f.edge,
        x: f.x,
        y: f.y,
        z: oz,
    }
}

// Test 2, of set and index.
fn set_fits(n: usize, l: Lengths) -> bool
    requires { n ≤ 262144 }
    ensures { result ≡ set_fits n l }
{
    let set = three_lengths(l.flags, l.parts, l.masses, l.fills, l.carry, n);
    let index = good_lengths(l.words, l.count, n);
    set & index
}

// Tests 1, 2 and 3.
fn given(s: Sides, g: Settings, t: Site, l: Lengths) -> Answer
    ensures { result ≡ given_answer s g t l (Ok tt) }
{
    if !good_sides(s) {
        return Err(Refusal::BadSides);
    }
    if !set_fits(cells(s), l) {
        return Err(Refusal::BadLength);
    }
    if !good_site(g, t) {
        return Err(Refusal::BadSetting(0));
    }
    Ok(())
}

// Test 20, of the rows behind a header of six lines.
fn rows(text: &[u8], nx: usize, ny: usize) -> Answer
    requires text_in_bounds { 7 + length (from_line 6 text.now) ≤ length text.now }
    requires le_nx { 1 ≤ nx }
    ensures { result ≡ rows_answer (rows_of ny nx (from_line 6 text.now) 7) }
{
    let at = line_at(text, 6);
    match test_rows(text, at, 7, nx, ny) {
        Ok(()) => Ok(()),
        Err(line) => Err(Refusal::BadRow(line)),
    }
}

// The tests behind that of the header.
fn tested(text: &[u8], s: Sides, g: Settings, t: Site, l: Lengths) -> Answer
    requires { 7 + length (from_line 6 text.now) ≤ length text.now }
    ensures { result ≡ grid_answer text.now s g t l }
{
    given(s, g, t, l)?;
    rows(text, s.nx, s.ny)
}

fn told(a: Answer, s: Sides, g: Settings, t: Site) -> Head
    ensures { result ≡ told_head a s g t }
{
    if !passed(a) {
        return refused(a);
    }
    Head {
        answer: Ok(()),
        sides: s,
        settings: g,
        site: t,
    }
}

// What the reader answers: all the tests, and what header and host say of the grid.
pub fn head(text: &[u8], nz: usize, oz: i64, g: Settings, l: Lengths) -> Head
    ensures { result ≡ read_head text.now nz oz g l }
{
    match read_header(text) {
        Err(line) => refused(Err(Refusal::BadHeader(line))),
        Ok(f) => {
            let s = sides_of(f, nz);
            let t = site_of(f, oz);
            told(tested(text, s, g, t, l), s, g, t)
        }
    }
}
