// The reader's last tests, of a record whose sections passed: 3, 5 and 6.
ghost use Rattle.std.specs.Prelude.{◌≡◌, suc};
ghost use Rattle.lattice.specs.Lattice.{d3q19};
ghost use Rattle.grid.specs.Answer.{Done};
ghost use Rattle.grid.specs.Grid.{grid_of};
ghost use Rattle.grid.specs.Good.{bad_fluid, bad_rule};
ghost use Rattle.grid.specs.Outcome.{or_refuse, if_none};
ghost use Rattle.grid.specs.declared.refusals.Refusal.TheVariants.{BadLayer, BadState};
ghost use Rattle.pumps.specs.Three.{totals_good};
ghost use Rattle.record.specs.Reading.{sides_in, poured_in, taken_in, cells_in, flag_in, state_in, content_answer};
ghost use Rattle.record.specs.inner.Passes.{Sound};

use crate::fair::first_unfair;
use checks::fluid::first_open;
use grid::Sides;
use grid::extent::cells;
use grid::refusals::{Answer, Refusal};
use lattice::limits::fair_carry;
use pumps::entry::good_totals;
use record::count::interface_cells;
use record::given::{good_site, settings_in, site_in};
use record::number::i64_at;
use record::places::{flags_at, later_in};

// Tests 5 and 6.
fn cell_tests(rec: &[u8], s: Sides) -> Answer
    requires sound { Sound rec.now }
    requires s_value { s ≡ sides_in rec.now }
    ensures { result ≡ if_none (cells_in rec.now) BadLayer (bad_fluid 18 (grid_of (sides_in rec.now)) (flag_in rec.now)) (if_none (suc (cells_in rec.now)) BadState (bad_rule d3q19 (cells_in rec.now) (state_in rec.now)) (or_refuse (totals_good (poured_in rec.now) (taken_in rec.now)) (BadState (cells_in rec.now)) Done)) }
{
    let n = cells(s);
    let at = flags_at(rec);
    let end = at + n;
    let flags = &rec[at..end];
    let open = first_open(flags, s);
    if open < n {
        return Err(Refusal::BadLayer(open));
    }
    let i = interface_cells(flags);
    let unfair = first_unfair(rec, flags, end + 4, end + 8 + 4 * i);
    if unfair < n {
        return Err(Refusal::BadState(unfair));
    }
    if !fair_carry(i64_at(rec, 72)) {
        return Err(Refusal::BadState(n));
    }
    if !good_totals(later_in(rec, 1), later_in(rec, 2)) {
        return Err(Refusal::BadState(n));
    }
    Ok(())
}

pub fn content(rec: &[u8], s: Sides) -> Answer
    requires sound { Sound rec.now }
    requires s_value { s ≡ sides_in rec.now }
    ensures { result ≡ content_answer rec.now }
{
    if !good_site(settings_in(rec), site_in(rec)) {
        return Err(Refusal::BadSetting(0));
    }
    cell_tests(rec, s)
}
