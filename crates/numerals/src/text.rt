// The text by its bytes: runs of one kind of byte, words and lines.
ghost use Rattle.std.specs.Prelude.{◌≡◌, ◌+◌, ◌≤◌, length, drop};
ghost use Rattle.numerals.specs.Text.{of_kind, blank, run, every, alike};
ghost use Rattle.numerals.specs.inner.Places.{word_at, Next, LineIs};

// The kinds of bytes that a run is made of: blanks, bytes of a word, of a line, digits, and the digit 0.
#[derive(Clone, Copy)]
pub enum Kind {
    Blank,
    Word,
    Line,
    Digit,
    Nought,
}

// Where a word begins and ends; they are equal if the line has no word more.
#[derive(Clone, Copy)]
pub struct Span {
    pub from: usize,
    pub to: usize,
}

fn is_blank(b: u8) -> bool
    ensures { result ≡ blank b }
{
    matches!(b, b' ' | b'\t' | b'\r')
}

pub fn is_word(b: u8) -> bool
    ensures { result ≡ of_kind Kind.Word b }
{
    if is_blank(b) {
        return false;
    }
    b != 10
}

fn of_kind(k: Kind, b: u8) -> bool
    ensures { result ≡ of_kind k b }
{
    match k {
        Kind::Blank => is_blank(b),
        Kind::Word => is_word(b),
        Kind::Line => b != 10,
        Kind::Digit => b.is_ascii_digit(),
        Kind::Nought => b == 48,
    }
}

// The first place from `at` on whose byte is not of that kind, the length if there is none.
pub fn past(s: &[u8], at: usize, k: Kind) -> usize
    requires { at ≤ length s.now }
    ensures { result ≡ at + run (of_kind k) (drop at s.now) }
{
    for i in at..s.len() {
        if !of_kind(k, s[i]) {
            return i;
        }
    }
    s.len()
}

// Every byte from `at` on is of that kind.
pub fn all_from(s: &[u8], at: usize, k: Kind) -> bool
    ensures { result ≡ every (of_kind k) (drop at s.now) }
{
    if s.len() <= at {
        return true;
    }
    past(s, at, k) == s.len()
}

pub fn next_word(s: &[u8], at: usize) -> Span
    requires { at ≤ length s.now }
    ensures { result ≡ word_at s.now at }
{
    let from = past(s, at, Kind::Blank);
    let to = past(s, from, Kind::Word);
    Span { from, to }
}

// Where the line after that of `at` begins.
pub fn next_line(s: &[u8], at: usize) -> usize
    requires { at ≤ length s.now }
    ensures { Next s.now at result }
{
    let end = past(s, at, Kind::Line);
    if end < s.len() {
        return end + 1;
    }
    end
}

// The same letters, in either case.
pub fn same_letters(w: &[u8], key: &[u8]) -> bool
    ensures { result ≡ alike w.now key.now }
{
    w.eq_ignore_ascii_case(key)
}

// Where line n begins, from 0.
pub fn line_at(s: &[u8], n: usize) -> usize
    ensures { LineIs s.now n result }
{
    let mut at = 0;
    for _ in 0..n {
        at = next_line(s, at);
    }
    at
}
