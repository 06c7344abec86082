// Layer 2, pumps and hoses: the two calls, pour and take, for every input. Knows the promises of grid and pumps.
#![tactic(auto)]

pub mod answers;

ghost use Rattle.std.specs.Prelude.{◌≡◌, true, false};
ghost use Rattle.grid.specs.State.{lent};
ghost use Rattle.pumps.specs.inner.Working.{Working, Worked};
ghost use Rattle.pumps.specs.Acts.{counted_in, ActTold};

use grid::Sides;
use grid::fill::interface_fill;
use grid::refusals::Refusal;
use pumps::effect::effect;
use pumps::entry;
use whole::wide;

// The act on an interface cell of a set that passed its tests: mass, fill and total number k.
fn worked(
    parts: &[i32],
    masses: &mut [i32],
    fills: &mut [u32],
    carry: &mut [i64],
    pour: bool,
    c: usize,
    amount: i64,
    k: usize,
) -> Result<i64, Refusal>
    requires { Working parts.now masses.old fills.old carry.old c k }
    ensures { Worked pour c amount k parts.now masses.old fills.old carry.old result masses.new fills.new carry.new }
{
    let Some(e) = effect(pour, amount, masses[c], carry[k]) else {
        return Err(Refusal::BadAmount);
    };
    let mass = e.mass;
    let total = e.total;
    fills[c] = interface_fill(parts, wide(mass), c);
    masses[c] = mass;
    carry[k] = total;
    Ok(e.moved)
}

// The total that an act counts into: poured 1, taken 2.
fn counted(pour: bool) -> usize
    ensures { result ≡ counted_in pour }
{
    if pour {
        return 1;
    }
    2
}

// Pour or take, whichever is asked.
fn act(
    flags: &[u8],
    parts: &[i32],
    masses: &mut [i32],
    fills: &mut [u32],
    carry: &mut [i64],
    s: Sides,
    c: usize,
    amount: i64,
    pour: bool,
) -> Result<i64, Refusal>
    ensures { ActTold pour s c amount (lent flags.now parts.now masses.old fills.old carry.old) result (lent flags.now parts.now masses.new fills.new carry.new) }
{
    entry::check(flags, parts, masses, fills, carry, s)?;
    if flags.len() <= c {
        return Err(Refusal::Outside);
    }
    if flags[c] != 1 {
        return Err(Refusal::NotInterface(c));
    }
    let k = counted(pour);
    worked(parts, masses, fills, carry, pour, c, amount, k)
}

// An amount is poured into interface cell c.
pub fn pour(
    flags: &[u8],
    parts: &[i32],
    masses: &mut [i32],
    fills: &mut [u32],
    carry: &mut [i64],
    s: Sides,
    c: usize,
    amount: i64,
) -> Result<i64, Refusal>
    ensures { ActTold true s c amount (lent flags.now parts.now masses.old fills.old carry.old) result (lent flags.now parts.now masses.new fills.new carry.new) }
{
    act(flags, parts, masses, fills, carry, s, c, amount, true)
}

// The smaller of an amount and the mass is taken from interface cell c.
pub fn take(
    flags: &[u8],
    parts: &[i32],
    masses: &mut [i32],
    fills: &mut [u32],
    carry: &mut [i64],
    s: Sides,
    c: usize,
    amount: i64,
) -> Result<i64, Refusal>
    ensures { ActTold false s c amount (lent flags.now parts.now masses.old fills.old carry.old) result (lent flags.now parts.now masses.new fills.new carry.new) }
{
    act(flags, parts, masses, fills, carry, s, c, amount, false)
}
