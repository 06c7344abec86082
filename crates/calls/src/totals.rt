// The totals of a set that the base made, which is lent the carry alone.
ghost use Rattle.std.specs.Prelude.{◌≡◌, length};
ghost use Rattle.calls.specs.inner.Totals.{carried_with};

// Its carry, beside the poured and taken that it has.
pub fn put_carry(carry: i64, totals: &mut [i64])
    requires { length totals.old ≡ 3 }
    ensures { totals.new ≡ carried_with carry totals.old }
{
    totals[0] = carry;
}

// Its carry, with the poured and taken of the set that it was made of.
pub fn put_totals(carry: i64, from: &[i64], totals: &mut [i64])
    requires { (length from.now ≡ 3) × (length totals.old ≡ 3) }
    ensures { totals.new ≡ carried_with carry from.now }
{
    totals[0] = carry;
    totals[1] = from[1];
    totals[2] = from[2];
}
