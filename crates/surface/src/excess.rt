// Stage 6: how an excess is shared out among the targets.
ghost use Rattle.std.specs.Prelude.{◌≡◌, cond, ◌<◌, pos, ◌*ℤ◌, ◌<ℤ◌, eqb};
ghost use Rattle.whole.specs.Fold.{dirs};
ghost use Rattle.whole.specs.laws.Machine.{Within};
ghost use Rattle.lattice.specs.Cell.{cut, positive, lowest_dir, remainder, share};
ghost use Rattle.lattice.specs.inner.Held.{parts_of, Weights};

use whole::wide;

// The weight of a neighbour with new flag f that lies d along the normal: d where positive, of targets alone.
pub fn weight(f: u8, d: i32) -> i64
    ensures { result ≡ cond (eqb f 1) (positive d) (pos 0) }
{
    if f == 1 {
        if d > 0 {
            return wide(d);
        }
    }
    0
}

// Where all weights are 0 each target weighs 1.
pub fn even(f: u8) -> i64
    ensures { result ≡ cond (eqb f 1) (pos 1) (pos 0) }
{
    if f == 1 {
        return 1;
    }
    0
}

pub fn total(w: [i64; 19]) -> i64
    requires { Weights w }
    ensures { result ≡ dirs 18 (parts_of w) }
{
    let mut t: i64 = 0;
    for i in 1..19 {
        t += w[i];
    }
    t
}

// The lowest direction with positive weight, 19 if there is none.
fn first(w: [i64; 19]) -> usize
    ensures { result ≡ lowest_dir 18 (parts_of w) }
{
    for i in 1..19 {
        if w[i] > 0 {
            return i;
        }
    }
    19
}

fn cut_share(e: i64, w: i64, t: i64) -> i64
    requires { Within e 4294967296 × Within w 1000000 × (pos 0 <ℤ t) }
    ensures { (result ≡ cut (e *ℤ w) t) × Within result 4294967296000000 }
{
    e * w / t
}

fn remainder(e: i64, w: [i64; 19], t: i64) -> i64
    requires { Within e 4294967296 × Weights w × (pos 0 <ℤ t) × (t ≡ dirs 18 (parts_of w)) }
    ensures { (result ≡ remainder 18 e (parts_of w)) × Within result 100000000000000000 }
{
    let mut r = e;
    for i in 1..19 {
        r -= cut_share(e, w[i], t);
    }
    r
}

// What goes to direction i of an excess e under the weights w.
pub fn given(e: i64, w: [i64; 19], i: usize) -> i64
    requires { Within e 4294967296 × Weights w × (pos 0 <ℤ dirs 18 (parts_of w)) × (0 < i) × (i < 19) }
    ensures { result ≡ share 18 e (parts_of w) i }
{
    let t = total(w);
    let y = cut_share(e, w[i], t);
    if first(w) == i {
        return y + remainder(e, w, t);
    }
    y
}
