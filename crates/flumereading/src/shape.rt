// The reader's sections in their order, with tests 1, 2 and 4 on the way.
ghost use Rattle.std.specs.Prelude.{◌≡◌, true, ◌+◌, ◌*◌, ◌≤◌, length};
ghost use Rattle.grid.specs.Answer.{Done};
ghost use Rattle.flume.specs.Flume.{flume_sides_good, flume_grid};
ghost use Rattle.grid.specs.Good.{bad_flag};
ghost use Rattle.grid.specs.Outcome.{if_none};
ghost use Rattle.grid.specs.declared.refusals.Refusal.TheVariants.{BadFlag};
ghost use Rattle.record.specs.Reading.{ends_on};
ghost use Rattle.flumerecord.specs.Reading.{flume_sides_in, flume_cells_in, flume_flag_in, flume_interfaces_in, flume_liquids_in, flume_shape};

use flume::FlumeSides;
use flume::extent::cells;
use flumegrid::layer::first_bad_flag;
use flumerecord::given::{opening, sides_in};
use grid::refusals::{Answer, Refusal};
use record::Counts;
use record::count::{interface_cells, liquid_cells};
use record::section::{sections_behind, sections_to_end};

// Test 4 of the flags, the sections behind them, and that nothing follows.
fn behind(rec: &[u8], s: FlumeSides) -> Answer
    requires s_value { s ≡ flume_sides_in rec.now }
    requires s_value_2 { flume_sides_good s ≡ true }
    requires rec_in_bounds { 68 + flume_cells_in rec.now ≤ length rec.now }
    ensures { result ≡ if_none (flume_cells_in rec.now) BadFlag (bad_flag (flume_grid (flume_sides_in rec.now)) (flume_flag_in rec.now)) (ends_on rec.now (68 + flume_cells_in rec.now) (flume_interfaces_in rec.now) (9 * flume_liquids_in rec.now) Done) }
{
    let n = cells(s);
    let end = 68 + n;
    let flags = &rec[68..end];
    let bad = first_bad_flag(flags, s);
    if bad < n {
        return Err(Refusal::BadFlag(bad));
    }
    sections_to_end(rec, end, interface_cells(flags), 9 * liquid_cells(flags))
}

// All sections and the tests on the way, beside slices of these lengths.
pub fn shape(rec: &[u8], parts: usize, masses: usize, fills: usize, carry: usize) -> Answer
    ensures { result ≡ flume_shape rec.now parts masses fills carry Done }
{
    opening(rec, parts, masses, fills, carry)?;
    let s = sides_in(rec);
    let held = Counts {
        sides: 2,
        settings: 4,
        origin: 2,
        parts: 9,
    };
    sections_behind(rec, held, 1, cells(s))?;
    behind(rec, s)
}
