// The reader of an invert.
ghost use Rattle.grid.specs.State.{lent};
ghost use Rattle.index.specs.Index.{index};
ghost use Rattle.invert.specs.Outcome.{Inverted};

use crate::testing;
use crate::testing::{Lengths, count_of};
use lattice::Settings;
use numerals::text::line_at;
use record::Head;
use record::section::passed;
use solids::{clearing, walls};

// Reads a height grid's text into a lent set and its index; nothing is written unless all of it is accepted.
pub fn read(
    text: &[u8],
    nz: usize,
    oz: i64,
    g: Settings,
    flags: &mut [u8],
    parts: &mut [i32],
    masses: &mut [i32],
    fills: &mut [u32],
    carry: &mut [i64],
    words: &mut [u64],
    count: &mut [u64],
) -> Head
    ensures { Inverted text.now nz oz g (lent flags.old parts.old masses.old fills.old carry.old) (index words.old count.old) result (lent flags.new parts.new masses.new fills.new carry.new) (index words.new count.new) }
{
    let l = Lengths {
        flags: flags.len(),
        parts: parts.len(),
        masses: masses.len(),
        fills: fills.len(),
        carry: carry.len(),
        words: words.len(),
        count: count.len(),
    };
    let h = testing::head(text, nz, oz, g, l);
    let a = h.answer;
    if !passed(a) {
        return h;
    }
    let s = h.sides;
    let t = h.site;
    let at = line_at(text, 6);
    walls::invert_flags(text, at, flags, s, count_of(t.edge));
    clearing::clear_waters(parts);
    clearing::clear_waters(masses);
    clearing::clear_fills(fills);
    clearing::clear_totals(carry);
    clearing::clear_words(words);
    clearing::clear_words(count);
    h
}
