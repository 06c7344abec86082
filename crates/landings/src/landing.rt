// Where a part lands, from the estimate of its equilibrium; whether that estimate tells; and of two ends the higher low word.
ghost use Rattle.std.specs.Prelude.{◌≡◌, ◌%◌, ◌≤◌};
ghost use Rattle.whole.specs.laws.Machine.{Within};
ghost use Rattle.landings.specs.inner.Estimate.{mixed, Mixes, landed, tells};

// What part f tends to, in 1024ths: p times its equilibrium, estimated as e in 2^-32 and cut, and c = 1024 - p times itself.
fn mixed(e: u64, f: i32, c: i32) -> i32
    requires { Mixes e f c }
    ensures { (result ≡ mixed e f c) × Within result 2147483646 }
{
    (e >> 32) as i32 + c * f
}

// Where it lands: the shift goes down, and stage 4 cuts what f shrinks by.
pub fn settled(e: u64, f: i32, c: i32) -> i32
    requires { Mixes e f c }
    ensures { (result ≡ landed e f c) × Within result 33554432 }
{
    let n = mixed(e, f, c) >> 10;
    if n < f {
        return n + 1;
    }
    n
}

// Whether one more would land it there too. The estimate lacks less than one, so a whole number that it missed then moves nothing.
pub fn tells(e: u64, f: i32, c: i32) -> bool
    requires { Mixes e f c }
    ensures { result ≡ tells e f c }
{
    let s = mixed(e, f, c);
    s >> 10 == (s + 1) >> 10
}

// The higher of the low words of two ends.
pub fn higher(a: u64, b: u64) -> u32
    ensures { (a % 4294967296 ≤ result) × (b % 4294967296 ≤ result) }
{
    let s = (a % 4294967296) as u32;
    let t = (b % 4294967296) as u32;
    if s < t {
        return t;
    }
    s
}

pub fn high(a: u32, b: u32) -> u32
    ensures { (a ≤ result) × (b ≤ result) }
{
    if a < b {
        return b;
    }
    a
}
