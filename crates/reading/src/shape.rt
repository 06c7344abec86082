// The reader's sections in their order, with tests 1, 2 and 4 on the way.
ghost use Rattle.std.specs.Prelude.{◌≡◌, true, ◌+◌, ◌≤◌, length};
ghost use Rattle.grid.specs.Answer.{Done};
ghost use Rattle.grid.specs.Grid.{sides_good, grid_of};
ghost use Rattle.grid.specs.Good.{bad_flag};
ghost use Rattle.grid.specs.Outcome.{if_none};
ghost use Rattle.grid.specs.declared.refusals.Refusal.TheVariants.{BadFlag};
ghost use Rattle.record.specs.Reading.{sides_in, flags_at, cells_in, flag_in, interfaces_in, liquids_in, shape_answer};
ghost use Rattle.record.specs.inner.Behind.{ends, behind_flags};

use checks::layer::first_bad_flag;
use grid::Sides;
use grid::extent::cells;
use grid::refusals::{Answer, Refusal};
use record::count::{interface_cells, liquid_cells};
use record::given::{opening, sides_in};
use record::places::flags_at;
use record::section::{cell_sections, front_sections};

// Test 4 of the flags, the sections behind them, and that nothing follows.
fn behind(rec: &[u8], s: Sides) -> Answer
    requires s_value { s ≡ sides_in rec.now }
    requires s_value_2 { sides_good s ≡ true }
    requires rec_in_bounds { flags_at rec.now + cells_in rec.now ≤ length rec.now }
    ensures { result ≡ if_none (cells_in rec.now) BadFlag (bad_flag (grid_of (sides_in rec.now)) (flag_in rec.now)) (ends rec.now (behind_flags rec.now) (interfaces_in rec.now) (liquids_in rec.now) Done) }
{
    let n = cells(s);
    let at = flags_at(rec);
    let end = at + n;
    let flags = &rec[at..end];
    let bad = first_bad_flag(flags, s);
    if bad < n {
        return Err(Refusal::BadFlag(bad));
    }
    cell_sections(rec, end, interface_cells(flags), liquid_cells(flags))
}

// All sections and the tests on the way, beside slices of these lengths.
pub fn shape(rec: &[u8], parts: usize, masses: usize, fills: usize, carry: usize) -> Answer
    ensures { result ≡ shape_answer rec.now parts masses fills carry Done }
{
    opening(rec, parts, masses, fills, carry)?;
    let s = sides_in(rec);
    front_sections(rec, cells(s))?;
    behind(rec, s)
}
