// The tests, in their order: 1, 2, 22, 3 of edge and origin, 23, 3 of a point, 4 and 6 by list order.
ghost use Rattle.std.specs.Prelude.{◌≡◌, true, ◌||◌, ◌*◌, eqb, length};
ghost use Rattle.whole.specs.Fold.{first};
ghost use Rattle.grid.specs.Grid.{sides_good};
ghost use Rattle.profile.specs.Profile.{not_above, far, broken, survey};
ghost use Rattle.profile.specs.Outcome.{open_answer, columns_answer, tests_answer, list_whole};

use crate::{Frame, points};
use columns::column::column_depth;
use grid::refusals::{Answer, Refusal};
use tunnel::{answers, placing};

// Test 23: the first chainage that is not above the one before; their number if there is none.
fn first_not_above(chainages: &[i64]) -> usize
    ensures { result ≡ first (length chainages.now) (not_above chainages.now) }
{
    let m = chainages.len();
    for i in 1..m {
        if chainages[i] <= chainages[i - 1] {
            return i;
        }
    }
    m
}

// Test 3 of a point: the first with a coordinate out of range, by placing; m if there is none.
fn first_far(f: Frame, points: &[i64], m: usize) -> usize
    requires { length points.now ≡ 3 * m }
    ensures { result ≡ first m (far f points.now) }
{
    for i in 0..m {
        if answers::refusal_number(points::placed(f, points, i)) == 3 {
            return i;
        }
    }
    m
}

// Depth's 4 and 6.
fn refuses(number: u8) -> bool
    ensures { result ≡ (eqb number 4 || eqb number 6) }
{
    (number == 4) | (number == 6)
}

// The first point whose column does not pass depth's tests; m if there is none.
fn first_broken(f: Frame, flags: &[u8], fills: &[u32], points: &[i64], m: usize) -> usize
    requires { (length points.now ≡ 3 * m) × (sides_good f.sides ≡ true) }
    ensures { result ≡ first m (broken (survey f flags.now fills.now points.now)) }
{
    for i in 0..m {
        if refuses(answers::depth_number(points::look(f, flags, fills, points, i))) {
            return i;
        }
    }
    m
}

// Tests 4 and 6, by list order.
fn columns_tested(f: Frame, flags: &[u8], fills: &[u32], points: &[i64], m: usize) -> Answer
    requires { (length points.now ≡ 3 * m) × (sides_good f.sides ≡ true) }
    ensures { result ≡ columns_answer (survey f flags.now fills.now points.now) m }
{
    let i = first_broken(f, flags, fills, points, m);
    if i < m {
        points::look(f, flags, fills, points, i)?;
    }
    Ok(())
}

// Test 2 of the list and its lines: three coordinates, a kind and a depth for each chainage.
fn whole(m: usize, points: usize, kinds: usize, depths: usize) -> bool
    ensures { result ≡ list_whole m points kinds depths }
{
    (points / 3 == m) & (points % 3 == 0) & (kinds == m) & (depths == m)
}

// Tests 1, 2, 22, and 3 of edge and origin: depth of column (0, 0) tells the first two, placing the origin the last.
fn opened(
    f: Frame,
    flags: &[u8],
    fills: &[u32],
    m: usize,
    points: usize,
    kinds: usize,
    depths: usize,
) -> Answer
    ensures { result ≡ open_answer f flags.now fills.now m points kinds depths }
{
    let s = f.sides;
    let origin = f.origin;
    let n = answers::depth_number(column_depth(s, flags, fills, 0, 0));
    if n == 1 {
        return Err(Refusal::BadSides);
    }
    if n == 2 {
        return Err(Refusal::BadLength);
    }
    if !whole(m, points, kinds, depths) {
        return Err(Refusal::BadLength);
    }
    if m == 0 {
        return Err(Refusal::BadList);
    }
    if 2000 < m {
        return Err(Refusal::BadList);
    }
    if answers::refusal_number(placing::place(s, f.edge, origin, origin)) == 3 {
        return Err(Refusal::BadSetting(0));
    }
    Ok(())
}

// Every test of a profile, in order.
pub fn tested(
    f: Frame,
    flags: &[u8],
    fills: &[u32],
    chainages: &[i64],
    points: &[i64],
    kinds: usize,
    depths: usize,
) -> Answer
    ensures { result ≡ tests_answer (survey f flags.now fills.now points.now) chainages.now kinds depths }
{
    let m = chainages.len();
    opened(f, flags, fills, m, points.len(), kinds, depths)?;
    let up = first_not_above(chainages);
    let out = first_far(f, points, m);
    if up < m {
        return Err(Refusal::BadChainage(up));
    }
    if out < m {
        return Err(Refusal::BadSetting(out));
    }
    columns_tested(f, flags, fills, points, m)
}
