// What a state's line counts: the cells of each kind, the masses with the carry, and the carry.
ghost use Rattle.std.specs.Prelude.{◌≡◌, cond, ◌≤◌, eqb, nat_abs, length};
ghost use Rattle.counts.specs.Counts.{cells_with, mass_sum, line_with};
ghost use Rattle.counts.specs.inner.Totals.{total_by};

use lattice::limits::fair_carry;
use whole::wide;

// A line's numbers, as document 01 orders them.
#[derive(Clone, Copy)]
pub struct Line {
    pub fluid: usize,
    pub interface: usize,
    pub empty: usize,
    pub wall: usize,
    pub total: i64,
    pub carry: i64,
}

fn one(flag: u8, wanted: u8) -> usize
    ensures { result ≡ cond (eqb flag wanted) 1 0 }
{
    if flag == wanted {
        return 1;
    }
    0
}

fn cells_with(flags: &[u8], wanted: u8) -> usize
    ensures { result ≡ cells_with wanted flags.now }
{
    let mut found = 0;
    for flag in flags {
        found += one(*flag, wanted);
    }
    found
}

fn mass_sum(masses: &[i32]) -> i64
    requires { length masses.now ≤ 862 }
    ensures value { result ≡ mass_sum masses.now }
    ensures result_bound { nat_abs result ≤ 1851131068416 }
{
    let mut sum: i64 = 0;
    for mass in masses {
        sum += wide(*mass);
    }
    sum
}

// The masses and the carry together. A carry that no accepted record and no step gives is told as no total.
fn total(masses: &[i32], carry: i64) -> i64
    requires { length masses.now ≤ 862 }
    ensures { result ≡ total_by masses.now carry }
{
    if fair_carry(carry) {
        return mass_sum(masses) + carry;
    }
    0
}

pub fn counts(flags: &[u8], masses: &[i32], carry: i64) -> Line
    requires { length masses.now ≤ 862 }
    ensures { result ≡ line_with flags.now (total_by masses.now carry) carry }
{
    Line {
        fluid: cells_with(flags, 2),
        interface: cells_with(flags, 1),
        empty: cells_with(flags, 0),
        wall: cells_with(flags, 3),
        total: total(masses, carry),
        carry,
    }
}
