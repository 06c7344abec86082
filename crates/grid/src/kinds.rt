// What a flag means: 0 empty, 1 interface, 2 fluid, 3 wall.
ghost use Rattle.std.specs.Prelude.{◌≡◌, ◌<◌, length};
ghost use Rattle.grid.specs.State.{liquid};
ghost use Rattle.grid.specs.inner.Passes.{either_liquid};

// Fluid or interface.
pub fn is_liquid(f: u8) -> bool
    ensures { result ≡ liquid f }
{
    (f == 1) | (f == 2)
}

// Whether cell c is liquid in one of two sets.
pub fn either_liquid(flags: &[u8], flags2: &[u8], c: usize) -> bool
    requires { (c < length flags.now) × (c < length flags2.now) }
    ensures { result ≡ either_liquid flags.now flags2.now c }
{
    is_liquid(flags[c]) | is_liquid(flags2[c])
}
