// Numbers as the writer spells them into a lent room, and how long they are.
ghost use Rattle.std.specs.Prelude.{◌≡◌, [], ◌∷◌, ◌+◌, ◌≤◌, length};
ghost use Rattle.spelling.specs.Spelling as spelling;
ghost use Rattle.spelling.specs.Spelling.{digits_of, spell_of, sign_of, whole_of, metres_of};
ghost use Rattle.spelling.specs.inner.Put.{Put};

use whole::magnitude;

// How many digits a number has.
pub fn width(n: u64) -> usize
    ensures { result ≡ spelling.width n }
{
    let mut w = 1;
    let mut m = n;
    while 10 <= m {
        m /= 10;
        w += 1;
    }
    w
}

pub fn put_byte(room: &mut [u8], at: usize, b: u8) -> usize
    requires { at + 1 ≤ length room.old }
    ensures { Put room.old at (b ∷ []) room.new result }
{
    room[at] = b;
    at + 1
}

pub fn put_bytes(room: &mut [u8], at: usize, bytes: &[u8]) -> usize
    requires { at + length bytes.now ≤ length room.old }
    ensures { Put room.old at bytes.now room.new result }
{
    let end = at + bytes.len();
    room[at..end].copy_from_slice(bytes);
    end
}

// The k lowest digits of n, from the last on.
fn put_digits(room: &mut [u8], at: usize, k: usize, n: u64) -> usize
    requires { at + k ≤ length room.old }
    ensures { Put room.old at (digits_of k n) room.new result }
{
    let mut m = n;
    for i in (0..k).rev() {
        room[at + i] = (48 + m % 10) as u8;
        m /= 10;
    }
    at + k
}

pub fn put_number(room: &mut [u8], at: usize, n: u64) -> usize
    requires { at + length (spell_of n) ≤ length room.old }
    ensures { Put room.old at (spell_of n) room.new result }
{
    let k = width(n);
    put_digits(room, at, k, n)
}

fn put_sign(room: &mut [u8], at: usize, z: i64) -> usize
    requires { at + length (sign_of z) ≤ length room.old }
    ensures { Put room.old at (sign_of z) room.new result }
{
    if 0 <= z {
        return at;
    }
    put_byte(room, at, 45)
}

// A whole number.
pub fn put_whole(room: &mut [u8], at: usize, z: i64) -> usize
    requires { at + length (whole_of z) ≤ length room.old }
    ensures { Put room.old at (whole_of z) room.new result }
{
    let p = put_sign(room, at, z);
    put_number(room, p, magnitude(z))
}

// Millimetres as metres with three decimals.
pub fn put_metres(room: &mut [u8], at: usize, z: i64) -> usize
    requires { at + length (metres_of z) ≤ length room.old }
    ensures { Put room.old at (metres_of z) room.new result }
{
    let m = magnitude(z);
    let whole = put_sign(room, at, z);
    let point = put_number(room, whole, m / 1000);
    let decimals = put_byte(room, point, 46);
    put_digits(room, decimals, 3, m % 1000)
}

fn sign_length(z: i64) -> usize
    ensures { result ≡ length (sign_of z) }
{
    if 0 <= z {
        return 0;
    }
    1
}

// How long the spelling of a whole number is.
pub fn whole_length(z: i64) -> usize
    ensures { result ≡ length (whole_of z) }
{
    sign_length(z) + width(magnitude(z))
}

// How long the spelling of millimetres as metres is.
pub fn metres_length(z: i64) -> usize
    ensures { result ≡ length (metres_of z) }
{
    sign_length(z) + width(magnitude(z) / 1000) + 4
}
