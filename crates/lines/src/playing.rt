// One record read and stepped, in slices that are lent for it, and what is to be told of it.
ghost use Rattle.std.specs.Prelude.{◌≡◌, [], ◌∷◌, ◌≤◌, pos, length, get_or};
ghost use Rattle.grid.specs.State.{lent};
ghost use Rattle.lines.specs.Told.{refusal};
ghost use Rattle.lines.specs.inner.Playing.{stepped_by, told_by};

use console::answers::refused;
use counts::counting::{Line, counts};
use grid::Sides;
use grid::refusals::Answer;
use lattice::Settings;
use reading::reader;
use record::flags;
use step::stepping;

// The record's answer; and where it is accepted the state's line, the step's answer, and the line of the state after it.
#[derive(Clone, Copy)]
pub struct Told {
    pub read: Answer,
    pub before: Line,
    pub step: Answer,
    pub after: Line,
}

// What is told of a refused record.
pub(crate) fn refuse(a: Answer) -> Told
    ensures { result ≡ refusal a }
{
    let none = Line {
        fluid: 0,
        interface: 0,
        empty: 0,
        wall: 0,
        total: 0,
        carry: 0,
    };
    Told {
        read: a,
        before: none,
        step: Ok(()),
        after: none,
    }
}

// The state, the step's answer, and the state that the second set then holds. The step is lent the carry alone: poured and taken stay beside it.
fn go(
    flags: &[u8],
    parts: &[i32],
    masses: &[i32],
    fills: &[u32],
    carry: &[i64],
    flags2: &mut [u8],
    parts2: &mut [i32],
    masses2: &mut [i32],
    fills2: &mut [u32],
    carry2: &mut [i64],
    marks: &mut [u8],
    s: Sides,
    g: Settings,
) -> Told
    requires masses_len_bound { length masses.now ≤ 862 }
    requires masses2_len_bound { length masses2.old ≤ 862 }
    requires carry_len { length carry.now ≡ 3 }
    requires carry2_len { length carry2.old ≡ 1 }
    ensures { result ≡ stepped_by s g (lent flags.now parts.now masses.now fills.now (get_or carry.now 0 (pos 0) ∷ [])) (lent flags2.old parts2.old masses2.old fills2.old carry2.old) marks.old }
{
    let alone = [carry[0]];
    let before = counts(flags, masses, carry[0]);
    let step = stepping::step(
        flags, parts, masses, fills, &alone, flags2, parts2, masses2, fills2, carry2, marks, s, g,
    );
    let after = counts(flags2, masses2, carry2[0]);
    Told {
        read: Ok(()),
        before,
        step,
        after,
    }
}

// A refused record is told by its answer alone.
pub(crate) fn play(
    rec: &[u8],
    parts: &mut [i32],
    masses: &mut [i32],
    fills: &mut [u32],
    carry: &mut [i64],
    flags2: &mut [u8],
    parts2: &mut [i32],
    masses2: &mut [i32],
    fills2: &mut [u32],
    carry2: &mut [i64],
    marks: &mut [u8],
) -> Told
    requires masses_len_bound { length masses.old ≤ 862 }
    requires masses2_len_bound { length masses2.old ≤ 862 }
    requires carry_len { length carry.old ≡ 3 }
    requires carry2_len { length carry2.old ≡ 1 }
    ensures { result ≡ told_by rec.now (lent [] parts.old masses.old fills.old carry.old) (lent flags2.old parts2.old masses2.old fills2.old carry2.old) marks.old }
{
    let head = reader::read(rec, parts, masses, fills, carry);
    let read = head.answer;
    if refused(read) {
        return refuse(read);
    }
    let own = flags::flags_of(rec, head);
    let s = head.sides;
    let g = head.settings;
    go(
        own, parts, masses, fills, carry, flags2, parts2, masses2, fills2, carry2, marks, s, g,
    )
}
