// Numbers at a place of the record, little-endian, signed ones in two's complement.
ghost use Rattle.std.specs.Prelude.{◌≡◌, ◌+◌, ◌*◌, ◌≤◌, length};
ghost use Rattle.std.proofs.lemmas.List.Edits.{sets};
ghost use Rattle.record.specs.Bytes.{value, part, u32_at, i32_at, i64_at, u32_of, bytes_of, i32_of, i64_of};

// The number that four bytes stand for, the lowest first.
fn word(a: u8, b: u8, c: u8, d: u8) -> u32
    ensures { result ≡ a + 256 * (b + 256 * (c + 256 * d)) }
{
    a as u32 + 256 * (b as u32 + 256 * (c as u32 + 256 * (d as u32)))
}

pub fn u32_at(s: &[u8], at: usize) -> u32
    requires { at + 4 ≤ length s.now }
    ensures { result ≡ u32_at s.now at }
{
    word(s[at], s[at + 1], s[at + 2], s[at + 3])
}

fn u64_at(s: &[u8], at: usize) -> u64
    requires { at + 8 ≤ length s.now }
    ensures { result ≡ value (part 8 at s.now) }
{
    let low = u32_at(s, at) as u64;
    let high = u32_at(s, at + 4) as u64;
    low + 4294967296 * high
}

// The signed numbers of 32 bits, and of 64.
pub fn i32_at(s: &[u8], at: usize) -> i32
    requires { at + 4 ≤ length s.now }
    ensures { result ≡ i32_at s.now at }
{
    u32_at(s, at).cast_signed()
}

pub fn i64_at(s: &[u8], at: usize) -> i64
    requires { at + 8 ≤ length s.now }
    ensures { result ≡ i64_at s.now at }
{
    u64_at(s, at).cast_signed()
}

pub fn put_u32(s: &mut [u8], at: usize, n: u32)
    requires { at + 4 ≤ length s.old }
    ensures { s.new ≡ sets s.old at (u32_of n) }
{
    let b = n / 256;
    let c = b / 256;
    let d = c / 256;
    s[at] = (n % 256) as u8;
    s[at + 1] = (b % 256) as u8;
    s[at + 2] = (c % 256) as u8;
    s[at + 3] = (d % 256) as u8;
}

fn put_u64(s: &mut [u8], at: usize, n: u64)
    requires { at + 8 ≤ length s.old }
    ensures { s.new ≡ sets s.old at (bytes_of 8 n) }
{
    put_u32(s, at, (n % 4294967296) as u32);
    put_u32(s, at + 4, (n / 4294967296) as u32);
}

// The 32 bits of a signed number, and the 64.
pub fn put_i32(s: &mut [u8], at: usize, x: i32)
    requires { at + 4 ≤ length s.old }
    ensures { s.new ≡ sets s.old at (i32_of x) }
{
    put_u32(s, at, x.cast_unsigned());
}

pub fn put_i64(s: &mut [u8], at: usize, x: i64)
    requires { at + 8 ≤ length s.old }
    ensures { s.new ≡ sets s.old at (i64_of x) }
{
    put_u64(s, at, x.cast_unsigned());
}
