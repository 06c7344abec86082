// The reader into a set with its index.
ghost use Rattle.std.specs.Prelude.{◌≡◌, []};
ghost use Rattle.grid.specs.Answer.{Done};
ghost use Rattle.grid.specs.State.{lent};
ghost use Rattle.index.specs.Index.{index};
ghost use Rattle.index.specs.Held.{held};
ghost use Rattle.intake.specs.Reading.{open_answer};
ghost use Rattle.intake.specs.Promise.{Read};

use grid::extent::cells;
use grid::refusals::{Answer, Refusal};
use index::{keeping, words};
use reading::reader;
use record::Head;
use record::flags::flags_of;
use record::given::{opening, sides_in};
use record::section::passed;

// Section 1, then tests 1 and 2, the index's lengths among the slices'.
fn opened(
    rec: &[u8],
    parts: usize,
    masses: usize,
    fills: usize,
    carry: usize,
    words: &[u64],
    count: &[u64],
) -> Answer
    ensures { result ≡ open_answer rec.now parts masses fills carry (index words.now count.now) Done }
{
    opening(rec, parts, masses, fills, carry)?;
    if !words::good_lengths(words.len(), count.len(), cells(sides_in(rec))) {
        return Err(Refusal::BadLength);
    }
    Ok(())
}

// Reads a record into the lent slices and makes the index of its flags; nothing is written unless all of it is accepted.
pub fn read(
    rec: &[u8],
    parts: &mut [i32],
    masses: &mut [i32],
    fills: &mut [u32],
    carry: &mut [i64],
    words: &mut [u64],
    count: &mut [u64],
) -> Head
    ensures { Read rec.now (held (lent [] parts.old masses.old fills.old carry.old) (index words.old count.old)) result parts.new masses.new fills.new carry.new (index words.new count.new) }
{
    if let Err(refusal) = opened(
        rec,
        parts.len(),
        masses.len(),
        fills.len(),
        carry.len(),
        words,
        count,
    ) {
        return reader::refused(Err(refusal));
    }
    let h = reader::read(rec, parts, masses, fills, carry);
    let a = h.answer;
    if !passed(a) {
        return h;
    }
    keeping::make(flags_of(rec, h), words, count);
    h
}
