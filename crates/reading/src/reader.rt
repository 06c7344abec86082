// The reader.
ghost use Rattle.std.specs.Prelude.{◌≡◌, []};
ghost use Rattle.grid.specs.State.{lent};
ghost use Rattle.record.specs.Promise.{Read};
ghost use Rattle.record.specs.Reading.{refused_head};

use crate::content::content;
use crate::shape::shape;
use crate::take::take;
use grid::Sides;
use grid::extent::cells;
use grid::refusals::Answer;
use lattice::Settings;
use record::given::{settings_in, sides_in, site_in};
use record::{Head, Site};

// What is returned beside a refusal.
pub fn refused(a: Answer) -> Head
    ensures { result ≡ refused_head a }
{
    let s = Sides {
        nx: 0,
        ny: 0,
        nz: 0,
    };
    let g = Settings {
        p: 0,
        gx: 0,
        gy: 0,
        gz: 0,
        turbulent: false,
    };
    let t = Site {
        edge: 0,
        x: 0,
        y: 0,
        z: 0,
    };
    Head {
        answer: a,
        sides: s,
        settings: g,
        site: t,
    }
}

// Reads a record into the lent slices; nothing is written unless all of it is accepted.
pub fn read(
    rec: &[u8],
    parts: &mut [i32],
    masses: &mut [i32],
    fills: &mut [u32],
    carry: &mut [i64],
) -> Head
    ensures { Read rec.now (lent [] parts.old masses.old fills.old carry.old) result parts.new masses.new fills.new carry.new }
{
    if let Err(refusal) = shape(rec, parts.len(), masses.len(), fills.len(), carry.len()) {
        return refused(Err(refusal));
    }
    let s = sides_in(rec);
    if let Err(refusal) = content(rec, s) {
        return refused(Err(refusal));
    }
    take(rec, cells(s), parts, masses, fills, carry);
    let g = settings_in(rec);
    let t = site_in(rec);
    Head {
        answer: Ok(()),
        sides: s,
        settings: g,
        site: t,
    }
}
