// The two questions of the surface, over words alone.
ghost use Rattle.host.specs.Given.{sides_of};
ghost use Rattle.hostsurface.specs.Promise.{CountTold, NextTold};

use grid::Sides;
use sweep::{asking, numbers};

// How many interface cells the words hold.
#[unsafe(no_mangle)]
pub extern "C" fn skw_surface_count(
    words: &[u64],
    nx: usize,
    ny: usize,
    nz: usize,
    cells: &mut usize,
    place: &mut usize,
) -> u8
    ensures { CountTold (sides_of nx ny nz) words.now result place.new cells.new }
{
    let s = Sides { nx, ny, nz };
    let a = asking::surface_count(words, s);
    *cells = numbers::count_cells(a);
    *place = numbers::count_place(a);
    numbers::count_number(a)
}

// The next interface cell at or after the start, with the words read: kind 0 refused, 1 found, 2 none.
#[unsafe(no_mangle)]
pub extern "C" fn skw_surface_next(
    words: &[u64],
    nx: usize,
    ny: usize,
    nz: usize,
    start: usize,
    kind: &mut u8,
    cell: &mut usize,
    read: &mut usize,
    place: &mut usize,
) -> u8
    ensures { NextTold (sides_of nx ny nz) words.now start result place.new kind.new cell.new read.new }
{
    let s = Sides { nx, ny, nz };
    let a = asking::surface_next(words, s, start);
    *kind = numbers::next_kind(a);
    *cell = numbers::next_cell(a);
    *read = numbers::next_words(a);
    *place = numbers::next_place(a);
    numbers::next_number(a)
}
