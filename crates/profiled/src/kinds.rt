// A line's kind, from what placing and depth answer.
ghost use Rattle.std.specs.Prelude.{◌≡◌};
ghost use Rattle.profile.specs.inner.Lines.{depth_line};

use grid::refusals::Refusal;
use tunnel::Depth;

// 1 solid, 2 dry, 3 deep, 4 outside.
pub(crate) fn kind(a: Result<Depth, Refusal>) -> u8
    ensures { result ≡ depth_line a }
{
    match a {
        Ok(Depth::Solid) => 1,
        Ok(Depth::Dry) => 2,
        Ok(Depth::Deep(_)) => 3,
        Err(_) => 4,
    }
}
