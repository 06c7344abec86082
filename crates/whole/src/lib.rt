// Tiny helpers that every layer may call. What this crate is for stands in specs/: the laws of whole numbers.
#![tactic(auto)]

ghost use Rattle.std.specs.Prelude.{◌≡◌, nat_abs};

// A number in twice its width.
pub fn wide(x: i32) -> i64
    ensures { result ≡ x }
{
    x as i64
}

// A number without its sign; `!x` is -x - 1, which fits where -x may not.
pub fn magnitude(x: i64) -> u64
    ensures { result ≡ nat_abs x }
{
    if x < 0 {
        return !x as u64 + 1;
    }
    x as u64
}
