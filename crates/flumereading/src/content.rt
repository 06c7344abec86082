// The reader's last tests, of a record whose sections passed: 3, 5 and 6.
ghost use Rattle.std.specs.Prelude.{◌≡◌, suc};
ghost use Rattle.lattice.specs.Lattice.{d2q9};
ghost use Rattle.grid.specs.Answer.{Done};
ghost use Rattle.flume.specs.Flume.{flume_grid};
ghost use Rattle.grid.specs.Good.{bad_fluid, bad_rule};
ghost use Rattle.grid.specs.Outcome.{if_none};
ghost use Rattle.grid.specs.declared.refusals.Refusal.TheVariants.{BadLayer, BadState};
ghost use Rattle.flumerecord.specs.Reading.{flume_sides_in, flume_cells_in, flume_flag_in, flume_state_in, flume_content};
ghost use Rattle.flumerecord.specs.inner.Passes.{FlumeSound};

use crate::fair::first_unfair;
use flume::FlumeSides;
use flume::extent::cells;
use flumegrid::fluid::first_open;
use flumerecord::given::{good_site, settings_in, site_in};
use grid::refusals::{Answer, Refusal};
use lattice::limits::fair_carry;
use record::count::interface_cells;
use record::number::i64_at;

// Tests 5 and 6.
fn cell_tests(rec: &[u8], s: FlumeSides) -> Answer
    requires flume_sound { FlumeSound rec.now }
    requires s_value { s ≡ flume_sides_in rec.now }
    ensures { result ≡ if_none (flume_cells_in rec.now) BadLayer (bad_fluid 8 (flume_grid (flume_sides_in rec.now)) (flume_flag_in rec.now)) (if_none (suc (flume_cells_in rec.now)) BadState (bad_rule d2q9 (flume_cells_in rec.now) (flume_state_in rec.now)) Done) }
{
    let n = cells(s);
    let end = 68 + n;
    let flags = &rec[68..end];
    let open = first_open(flags, s);
    if open < n {
        return Err(Refusal::BadLayer(open));
    }
    let i = interface_cells(flags);
    let unfair = first_unfair(rec, flags, end + 4, end + 8 + 4 * i);
    if unfair < n {
        return Err(Refusal::BadState(unfair));
    }
    if !fair_carry(i64_at(rec, 56)) {
        return Err(Refusal::BadState(n));
    }
    Ok(())
}

pub fn content(rec: &[u8], s: FlumeSides) -> Answer
    requires flume_sound { FlumeSound rec.now }
    requires s_value { s ≡ flume_sides_in rec.now }
    ensures { result ≡ flume_content rec.now }
{
    if !good_site(settings_in(rec), site_in(rec)) {
        return Err(Refusal::BadSetting(0));
    }
    cell_tests(rec, s)
}
