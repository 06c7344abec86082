// Where a pass that does much at few cells goes on: from one such cell to the next. Its own loop would keep what it counts in memory.
ghost use Rattle.std.specs.Prelude.{◌≡◌, not, ◌+◌, ◌≤◌, ◌<◌, eqb, length, get_or};
ghost use Rattle.whole.specs.Fold.{all};
ghost use Rattle.grid.specs.inner.Passes.{Dry, Lacking, NextOf, NextWet, NextMarked, Unmarked, either_liquid};

use grid::kinds::either_liquid;

// Whether none of n cells from a on is of a kind. By no way out, so that they are looked at together.
fn lacking(flags: &[u8], a: usize, n: usize, kind: u8) -> bool
    requires { a + n ≤ length flags.now }
    ensures { result ≡ all n (λ k. not (eqb (get_or flags.now (a + k) 0) kind)) }
{
    let mut none = true;
    for k in 0..n {
        none = none & (flags[a + k] != kind);
    }
    none
}

// Past cells from a on that are of another kind, n at a time.
fn past_lacking(flags: &[u8], a: usize, n: usize, kind: u8) -> usize
    requires { (a ≤ length flags.now) × (0 < n) }
    ensures { Lacking flags.now a kind result }
{
    let mut c = a;
    // n at a time from wherever the last search ended: no range says that.
    while flags.len() - c >= n {
        if !lacking(flags, c, n, kind) {
            return c;
        }
        c += n;
    }
    c
}

// The next cell of a kind, from a on; the number of cells if there is none. By 32, then by 8, then by one: most are not far.
pub fn next_of(flags: &[u8], a: usize, kind: u8) -> usize
    requires { a ≤ length flags.now }
    ensures { NextOf flags.now a kind result }
{
    for c in past_lacking(flags, past_lacking(flags, a, 32, kind), 8, kind)..flags.len() {
        if flags[c] == kind {
            return c;
        }
    }
    flags.len()
}

// Whether none of 32 cells from a on is marked. By no way out, so that they are looked at together.
fn quiet(marks: &[u8], a: usize) -> bool
    requires { a + 32 ≤ length marks.now }
    ensures { result ≡ all 32 (λ k. eqb (get_or marks.now (a + k) 0) 0) }
{
    let mut none = true;
    for k in 0..32 {
        none = none & (marks[a + k] == 0);
    }
    none
}

// Past cells from a on that have no mark, 32 at a time.
fn past_quiet(marks: &[u8], a: usize) -> usize
    requires { a ≤ length marks.now }
    ensures { Unmarked marks.now a result }
{
    let mut c = a;
    // 32 at a time from wherever the last search ended: no range says that.
    while marks.len() - c >= 32 {
        if !quiet(marks, c) {
            return c;
        }
        c += 32;
    }
    c
}

// The next cell with a mark, from a on; the number of cells if there is none.
pub fn next_marked(marks: &[u8], a: usize) -> usize
    requires { a ≤ length marks.now }
    ensures { NextMarked marks.now a result }
{
    for c in past_quiet(marks, a)..marks.len() {
        if marks[c] != 0 {
            return c;
        }
    }
    marks.len()
}

// Whether n cells from a on are dry in both sets. By no way out, so that they are looked at together.
fn dry(flags: &[u8], flags2: &[u8], a: usize, n: usize) -> bool
    requires { (a + n ≤ length flags.now) × (length flags2.now ≡ length flags.now) }
    ensures { result ≡ all n (λ k. not (either_liquid flags.now flags2.now (a + k))) }
{
    let mut none = true;
    for k in 0..n {
        none = none & !either_liquid(flags, flags2, a + k);
    }
    none
}

// Past cells from a on that are dry in both sets, n at a time.
fn past_dry(flags: &[u8], flags2: &[u8], a: usize, n: usize) -> usize
    requires { (a ≤ length flags.now) × (length flags2.now ≡ length flags.now) × (0 < n) }
    ensures { Dry flags.now flags2.now a result }
{
    let mut c = a;
    // n at a time from wherever the last search ended: no range says that.
    while flags.len() - c >= n {
        if !dry(flags, flags2, c, n) {
            return c;
        }
        c += n;
    }
    c
}

// The next cell that is liquid in one of two sets, from a on; the number of cells if there is none.
pub fn next_wet(flags: &[u8], flags2: &[u8], a: usize) -> usize
    requires { (a ≤ length flags.now) × (length flags2.now ≡ length flags.now) }
    ensures { NextWet flags.now flags2.now a result }
{
    for c in past_dry(flags, flags2, past_dry(flags, flags2, a, 32), 8)..flags.len() {
        if either_liquid(flags, flags2, c) {
            return c;
        }
    }
    flags.len()
}
