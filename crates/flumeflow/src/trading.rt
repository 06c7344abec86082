// Stage 2: what an interface cell gains from its neighbours.
ghost use Rattle.std.specs.Prelude.{◌≡◌, ◌<◌, length, get_or};
ghost use Rattle.lattice.specs.declared.Settings.{Settings};
ghost use Rattle.grid.specs.State.{by_flag};
ghost use Rattle.grid.specs.inner.Sight.{Around};
ghost use Rattle.grid.specs.Step.{traded_mass};
ghost use Rattle.flumearrivals.specs.inner.Seen.{sight9, Traders9};

use flumearrivals::trading::traded9;
use nine::cells::place;
use whole::wide;

// The mass of interface cell c with what it gains from its neighbours.
fn traded_mass9(
    flags: &[u8],
    parts: &[i32],
    masses: &[i32],
    fills: &[u32],
    off: &[usize; 19],
    low: usize,
    c: usize,
) -> i64
    requires { Traders9 flags.now parts.now masses.now fills.now × Around (length flags.now) off.now low c × (get_or flags.now c 3 ≡ 1) }
    ensures { (g : Settings) → result ≡ traded_mass (sight9 flags.now parts.now masses.now fills.now off.now low g) c }
{
    let b = c - low;
    let mut m = wide(masses[c]);
    for pair in 0..4 {
        let k = 2 * pair + 1;
        let i = place(k);
        m += traded9(flags, parts, fills, c, b + off[i], k, k + 1);
        m += traded9(flags, parts, fills, c, b + off[i + 1], k + 1, k);
    }
    m
}

// The mass after stage 2: an interface cell's is traded, any other's is its density, which is 0 where there is no liquid.
pub fn new_mass9(
    flags: &[u8],
    parts: &[i32],
    masses: &[i32],
    fills: &[u32],
    off: &[usize; 19],
    low: usize,
    c: usize,
    rho: i32,
) -> i32
    requires { Traders9 flags.now parts.now masses.now fills.now × (c < length flags.now) × (get_or flags.now c 3 ≡ 1 → Around (length flags.now) off.now low c) }
    ensures { (g : Settings) → result ≡ by_flag (get_or flags.now c 3) rho (traded_mass (sight9 flags.now parts.now masses.now fills.now off.now low g) c) rho rho }
{
    if flags[c] == 1 {
        return traded_mass9(flags, parts, masses, fills, off, low, c) as i32;
    }
    rho
}
