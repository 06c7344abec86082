// The set bits of the words counted.
ghost use Rattle.std.specs.Prelude.{◌≡◌, ◌≤◌, length};
ghost use Rattle.index.specs.Index.{words_of, how_many};

use crate::bits;

// The set bits below n.
pub fn how_many(words: &[u64], n: usize) -> usize
    requires { (n ≤ 262144) × (length words.now ≡ words_of n) }
    ensures { result ≡ how_many n words.now }
{
    let full = n / 64;
    let mut sum = 0;
    for w in &words[..full] {
        sum += bits::ones(*w);
    }
    if n % 64 == 0 {
        return sum;
    }
    sum + bits::ones_below(words[full], n % 64)
}
