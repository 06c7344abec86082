// Numbers as the words of a text spell them, in thousandths.
ghost use Rattle.std.specs.Prelude.{◌≡◌, true, ◌+◌, ◌≤◌};
ghost use Rattle.numerals.specs.Text.{of_kind, run};
ghost use Rattle.numerals.specs.Number.{digit_at, value_to, thousandths_at, ends_well, plain_of, kept, negated, number_of};

use crate::text::{Kind, all_from, past};

// The digit at a place; past the end, where none is written, it is 0.
fn digit_at(w: &[u8], i: usize) -> u64
    ensures { result ≡ digit_at w.now i }
{
    if w.len() <= i {
        return 0;
    }
    let b = w[i];
    if b < 48 {
        return 0;
    }
    (b - 48) as u64
}

// The number that the first n digits spell.
fn value(w: &[u8], n: usize) -> u64
    requires n_bound { n ≤ 12 }
    requires n_bound_2 { n ≤ run (of_kind Kind.Digit) w.now }
    ensures { result ≡ value_to w.now n }
{
    let mut v = 0;
    for i in 0..n {
        v = 10 * v + digit_at(w, i);
    }
    v
}

// Nothing follows the k digits, or a point and digits, of which those after the third are 0.
fn ends_well(w: &[u8], k: usize) -> bool
    requires { k ≤ 12 }
    ensures { result ≡ ends_well w.now k }
{
    if w.len() <= k {
        return true;
    }
    if w.len() <= k + 1 {
        return false;
    }
    if w[k] != 46 {
        return false;
    }
    if !all_from(w, k + 1, Kind::Digit) {
        return false;
    }
    all_from(w, k + 4, Kind::Nought)
}

fn thousandths(w: &[u8], k: usize) -> u64
    requires k_bound { k ≤ 12 }
    requires k_value { ends_well w.now k ≡ true }
    ensures { result ≡ thousandths_at w.now k }
{
    100 * digit_at(w, k + 1) + 10 * digit_at(w, k + 2) + digit_at(w, k + 3)
}

// What a word spells without a sign, in thousandths.
fn plain(w: &[u8]) -> Option<u64>
    ensures { result ≡ plain_of w.now }
{
    let k = past(w, 0, Kind::Digit);
    if k < 1 {
        return None;
    }
    if 12 < k {
        return None;
    }
    if !ends_well(w, k) {
        return None;
    }
    Some(1000 * value(w, k) + thousandths(w, k))
}

fn positive(w: &[u8]) -> Option<i64>
    ensures { result ≡ kept (plain_of w.now) }
{
    let n = plain(w)?;
    Some(n as i64)
}

// What stands behind a minus. `!x` is -x - 1, which has no case of its own where -x may not fit.
fn negative(w: &[u8]) -> Option<i64>
    ensures { result ≡ negated (plain_of w.now) }
{
    let n = plain(w)?;
    if n == 0 {
        return Some(0);
    }
    Some(!((n - 1) as i64))
}

// The number that a word spells, in thousandths; nothing where it cannot be read as one.
pub fn number_of(w: &[u8]) -> Option<i64>
    ensures { result ≡ number_of w.now }
{
    if w.len() == 0 {
        return None;
    }
    if w[0] == 45 {
        return negative(&w[1..]);
    }
    positive(w)
}
