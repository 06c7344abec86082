// What an act does to a cell's mass and to its total, in numbers.
ghost use Rattle.std.specs.Prelude.{◌≡◌};
ghost use Rattle.whole.specs.laws.Machine.{Within};
ghost use Rattle.pumps.specs.Acts.{amount_good, moved_of, mass_of};
ghost use Rattle.pumps.specs.inner.Working.{EffectIs};

use whole::wide;

// What the act moves, and the mass and the total after it.
#[derive(Clone, Copy)]
pub struct Change {
    pub moved: i64,
    pub mass: i32,
    pub total: i64,
}

fn good_amount(a: i64) -> bool
    ensures { result ≡ amount_good a }
{
    (1 <= a) & (a <= 589824)
}

// The amount that is poured; of one that is taken the smaller of it and the mass, nothing if the mass is not positive.
fn moved_by(pour: bool, amount: i64, mass: i64) -> i64
    ensures { result ≡ moved_of pour amount mass }
{
    if pour {
        return amount;
    }
    if mass <= 0 {
        return 0;
    }
    if mass < amount {
        return mass;
    }
    amount
}

// The mass after it.
fn mass_after(pour: bool, mass: i64, moved: i64) -> i64
    requires { Within mass 2359296 × Within moved 2359296 }
    ensures { result ≡ mass_of pour mass moved }
{
    if pour {
        return mass + moved;
    }
    mass - moved
}

// Test 16: the numbers where it passes, None where it fails.
pub fn effect(pour: bool, amount: i64, mass: i32, total: i64) -> Option<Change>
    requires { Within mass 2359296 × Within total 1000000000000000 }
    ensures { EffectIs pour amount mass total result }
{
    if !good_amount(amount) {
        return None;
    }
    let m = wide(mass);
    let moved = moved_by(pour, amount, m);
    let after = mass_after(pour, m, moved);
    if 2359296 < after {
        return None;
    }
    let sum = total + moved;
    if 1000000000000000 < sum {
        return None;
    }
    Some(Change {
        moved,
        mass: after as i32,
        total: sum,
    })
}
