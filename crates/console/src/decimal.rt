// Whole numbers as an argument spells them, digit by digit.
ghost use Rattle.std.specs.Prelude.{◌≡◌};
ghost use Rattle.console.specs.Decimal.{spelled_by};
ghost use Rattle.console.specs.inner.Digit.{one_more};

// One digit more after n, where that is at most `most`. No product is formed before it is known to fit.
fn one_more(n: u64, d: u8, most: u64) -> Option<u64>
    ensures { result ≡ one_more n d most }
{
    if d < 48 {
        return None;
    }
    if 57 < d {
        return None;
    }
    if most / 10 < n {
        return None;
    }
    let digit = (d - 48) as u64;
    if most - 10 * n < digit {
        return None;
    }
    Some(10 * n + digit)
}

// The number that a text of digits spells, where it is at most `most`; nothing where it cannot be read as one.
pub fn count(text: &[u8], most: u64) -> Option<u64>
    ensures { result ≡ spelled_by text.now most }
{
    if text.len() == 0 {
        return None;
    }
    let mut n = 0;
    for d in text {
        n = one_more(n, *d, most)?;
    }
    Some(n)
}
