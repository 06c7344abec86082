// The flood: each liquid cell without a mark begins a pool, and its mark goes to the liquid cells that hang together with it. The cells that have a
// mark stand in a queue, in the order in which they got it; a cell enters it once.
ghost use Rattle.std.specs.Prelude.{◌≡◌, ◌+◌, ◌≤◌, ◌<◌, length, replicate};
ghost use Rattle.grid.specs.Grid.{cells_of};
ghost use Rattle.grid.specs.inner.Passes.{Flagged};
ghost use Rattle.pools.specs.inner.Flood.{Marked, Touching, Touched, Laying, Sound, Spread, Behind, Drained, Flooded, Finished};

use grid::{Sides, kinds, neighbours};

// How far the scan has come: the queue's length, and the pools found.
#[derive(Clone, Copy)]
struct Found {
    pub tail: usize,
    pub pools: usize,
}

// A cell's number as it stands in the queue.
fn place(x: u32) -> usize
    ensures { result ≡ x }
{
    x as usize
}

// No cell has a mark.
pub fn clear(marks: &mut [u16])
    ensures { marks.new ≡ replicate (length marks.old) 0 }
{
    marks.fill(0);
}

// Where cell e is liquid and has no mark, it gets the mark m and the next place of the queue. Answers the queue's length.
fn touch(flags: &[u8], marks: &mut [u16], work: &mut [u32], e: usize, m: u16, tail: usize) -> usize
    requires { Touching flags.now marks.old work.old e tail }
    ensures { Touched flags.now marks.old work.old e m tail result marks.new work.new }
{
    if !kinds::is_liquid(flags[e]) {
        return tail;
    }
    if marks[e] != 0 {
        return tail;
    }
    marks[e] = m;
    work[tail] = e as u32;
    tail + 1
}

// The mark of cell d goes to each liquid neighbour without one.
fn spread(
    flags: &[u8],
    off: &[usize; 19],
    marks: &mut [u16],
    work: &mut [u32],
    d: usize,
    tail: usize,
    s: Sides,
) -> usize
    requires { Laying s flags.now off.now × Sound s flags.now marks.old work.old tail × (d < cells_of s) × Marked marks.old d }
    ensures { Spread s flags.now d marks.old work.old tail marks.new work.new result }
{
    let k = d - neighbours::low_of(s);
    let m = marks[d];
    let mut end = tail;
    for i in 1..19 {
        end = touch(flags, marks, work, k + off[i], m, end);
    }
    end
}

// Each cell of the queue from head on passes its mark on, until none is left.
fn drain(
    flags: &[u8],
    off: &[usize; 19],
    marks: &mut [u16],
    work: &mut [u32],
    head: usize,
    tail: usize,
    s: Sides,
) -> usize
    requires { Laying s flags.now off.now × Behind s flags.now marks.old work.old head tail × (head ≤ tail) }
    ensures { Drained s flags.now marks.old work.old tail marks.new work.new result }
{
    let mut at = head;
    let mut end = tail;
    // The queue grows while it is gone through: no range says that.
    while at < end {
        let d = place(work[at]);
        end = spread(flags, off, marks, work, d, end, s);
        at += 1;
    }
    end
}

// Cell c of the scan: where it is liquid and has no mark, it is the lowest cell of a new pool.
fn visit(
    flags: &[u8],
    off: &[usize; 19],
    marks: &mut [u16],
    work: &mut [u32],
    c: usize,
    found: Found,
    s: Sides,
) -> Found
    requires { Laying s flags.now off.now × (c < cells_of s) × Flooded s flags.now marks.old work.old c found.tail found.pools }
    ensures { Flooded s flags.now marks.new work.new (c + 1) result.tail result.pools }
{
    if !kinds::is_liquid(flags[c]) {
        return found;
    }
    if marks[c] != 0 {
        return found;
    }
    let tail = found.tail;
    let pools = found.pools + 1;
    marks[c] = pools as u16;
    work[tail] = c as u32;
    let end = drain(flags, off, marks, work, tail, tail + 1, s);
    Found { tail: end, pools }
}

// Every cell's mark, and the number of pools.
pub fn flood(flags: &[u8], marks: &mut [u16], work: &mut [u32], s: Sides) -> usize
    requires { Flagged s flags.now × (length marks.old ≡ cells_of s) × (length work.old ≡ cells_of s) }
    ensures { Finished s flags.now work.old result marks.new work.new }
{
    clear(marks);
    let off = neighbours::offsets(s);
    let mut found = Found { tail: 0, pools: 0 };
    for c in 0..flags.len() {
        found = visit(flags, &off, marks, work, c, found, s);
    }
    found.pools
}
