// Document 01's number and place of what the two questions answer, 0 0 if accepted, and its values, 0 beside a refusal.
ghost use Rattle.std.specs.Prelude.{◌≡◌};
ghost use Rattle.index.specs.Outcome.{count_number, count_place, count_cells, next_number, next_place, next_kind, next_cell, next_words};

use grid::refusals::Refusal;
use index::Next;

pub fn count_number(a: Result<usize, Refusal>) -> u8
    ensures { result ≡ count_number a }
{
    match a {
        Ok(_) => 0,
        Err(refusal) => refusal.number(),
    }
}

pub fn count_place(a: Result<usize, Refusal>) -> usize
    ensures { result ≡ count_place a }
{
    match a {
        Ok(_) => 0,
        Err(refusal) => refusal.place(),
    }
}

pub fn count_cells(a: Result<usize, Refusal>) -> usize
    ensures { result ≡ count_cells a }
{
    match a {
        Ok(cells) => cells,
        Err(_) => 0,
    }
}

pub fn next_number(a: Result<Next, Refusal>) -> u8
    ensures { result ≡ next_number a }
{
    match a {
        Ok(_) => 0,
        Err(refusal) => refusal.number(),
    }
}

pub fn next_place(a: Result<Next, Refusal>) -> usize
    ensures { result ≡ next_place a }
{
    match a {
        Ok(_) => 0,
        Err(refusal) => refusal.place(),
    }
}

// 1 found, 2 none.
pub fn next_kind(a: Result<Next, Refusal>) -> u8
    ensures { result ≡ next_kind a }
{
    match a {
        Ok(seen) => match seen.cell {
            Some(_) => 1,
            None => 2,
        },
        Err(_) => 0,
    }
}

pub fn next_cell(a: Result<Next, Refusal>) -> usize
    ensures { result ≡ next_cell a }
{
    match a {
        Ok(seen) => match seen.cell {
            Some(cell) => cell,
            None => 0,
        },
        Err(_) => 0,
    }
}

pub fn next_words(a: Result<Next, Refusal>) -> usize
    ensures { result ≡ next_words a }
{
    match a {
        Ok(seen) => seen.words,
        Err(_) => 0,
    }
}
