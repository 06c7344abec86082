// Whole numbers that may be negative, as an argument spells them.
ghost use Rattle.std.specs.Prelude.{◌≡◌};
ghost use Rattle.console.specs.Decimal.{spelled_by};
ghost use Rattle.console.specs.Signed.{negated, kept, signed_by};

use crate::decimal::count;

// What stands behind the minus. `!x` is -x - 1, which fits where -x may not.
fn negative(text: &[u8]) -> Option<i64>
    ensures { result ≡ negated (spelled_by text.now 9223372036854775808) }
{
    let n = count(text, 9223372036854775808)?;
    if n == 0 {
        return Some(0);
    }
    Some(!((n - 1) as i64))
}

fn positive(text: &[u8]) -> Option<i64>
    ensures { result ≡ kept (spelled_by text.now 9223372036854775807) }
{
    let n = count(text, 9223372036854775807)?;
    Some(n as i64)
}

// The number of 64 bits that digits spell, negative if a minus stands before them; nothing where it cannot be read as one.
pub fn amount(text: &[u8]) -> Option<i64>
    ensures { result ≡ signed_by text.now }
{
    if text.len() == 0 {
        return None;
    }
    if text[0] == 45 {
        return negative(&text[1..]);
    }
    positive(text)
}
