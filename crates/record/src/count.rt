// I and L, the interface and the liquid cells among N flags.
ghost use Rattle.std.specs.Prelude.{◌≡◌, cond, eqb, length};
ghost use Rattle.grid.specs.State.{liquid, flag_of};
ghost use Rattle.record.specs.Layout.{interfaces, liquids};

pub fn one_interface(flag: u8) -> usize
    ensures { result ≡ cond (eqb flag 1) 1 0 }
{
    if flag == 1 {
        return 1;
    }
    0
}

pub fn one_liquid(flag: u8) -> usize
    ensures { result ≡ cond (liquid flag) 1 0 }
{
    if flag == 1 {
        return 1;
    }
    if flag == 2 {
        return 1;
    }
    0
}

pub fn interface_cells(flags: &[u8]) -> usize
    ensures { result ≡ interfaces (length flags.now) (flag_of flags.now) }
{
    let mut found = 0;
    for flag in flags {
        found += one_interface(*flag);
    }
    found
}

pub fn liquid_cells(flags: &[u8]) -> usize
    ensures { result ≡ liquids (length flags.now) (flag_of flags.now) }
{
    let mut found = 0;
    for flag in flags {
        found += one_liquid(*flag);
    }
    found
}
