// Stage 2: what an interface cell gains from its neighbours, and the mark that stage 5 makes of it.
ghost use Rattle.std.specs.Prelude.{◌≡◌, ◌<◌, length, get_or};
ghost use Rattle.lattice.specs.declared.Settings.{Settings};
ghost use Rattle.grid.specs.State.{by_flag};
ghost use Rattle.grid.specs.inner.Sight.{Around, box_sight};
ghost use Rattle.grid.specs.Step.{traded_mass};
ghost use Rattle.flow.specs.inner.Trade.{Traders, mark_for};

use arrivals::trading::traded;
use whole::wide;

// The mass of interface cell c with what it gains from its neighbours.
fn traded_mass(
    flags: &[u8],
    parts: &[i32],
    masses: &[i32],
    fills: &[u32],
    off: &[usize; 19],
    low: usize,
    c: usize,
) -> i64
    requires { Traders flags.now parts.now masses.now fills.now × Around (length flags.now) off.now low c × (get_or flags.now c 3 ≡ 1) }
    ensures { (g : Settings) → result ≡ traded_mass (box_sight flags.now parts.now masses.now fills.now off.now low g) c }
{
    let k = c - low;
    let mut m = wide(masses[c]);
    for pair in 0..9 {
        let i = 2 * pair + 1;
        m += traded(flags, parts, fills, c, k + off[i], i, i + 1);
        m += traded(flags, parts, fills, c, k + off[i + 1], i + 1, i);
    }
    m
}

// The mass after stage 2: an interface cell's is traded, any other's is its density, which is 0 where there is no liquid.
pub fn new_mass(
    flags: &[u8],
    parts: &[i32],
    masses: &[i32],
    fills: &[u32],
    off: &[usize; 19],
    low: usize,
    c: usize,
    rho: i32,
) -> i32
    requires { Traders flags.now parts.now masses.now fills.now × (c < length flags.now) × (get_or flags.now c 3 ≡ 1 → Around (length flags.now) off.now low c) }
    ensures { (g : Settings) → result ≡ by_flag (get_or flags.now c 3) rho (traded_mass (box_sight flags.now parts.now masses.now fills.now off.now low g) c) rho rho }
{
    if flags[c] == 1 {
        return traded_mass(flags, parts, masses, fills, off, low, c) as i32;
    }
    rho
}

// The mark that stage 5 gives a cell of flag f: 1 filled, 2 to be emptied, else 0.
pub fn new_mark(f: u8, m: i32, rho: i32) -> u8
    ensures { result ≡ mark_for f m rho }
{
    if f == 1 {
        return surface::convert::mark_of(wide(m), wide(rho));
    }
    0
}
