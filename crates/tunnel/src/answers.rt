// What placing and depth answer, in document 01's numbers: the refusal's number and place, 0 0 if accepted, and the values, 0 beside a refusal.
ghost use Rattle.std.specs.Prelude.{◌≡◌};
ghost use Rattle.tunnel.specs.Place.{placed_number, placed_place, cell_number};
ghost use Rattle.tunnel.specs.Depth.{told_of};

use crate::{Depth, Placed};
use grid::refusals::Refusal;

pub fn refusal_number(a: Placed) -> u8
    ensures { result ≡ placed_number a }
{
    match a {
        Ok(_) => 0,
        Err(refusal) => refusal.number(),
    }
}

pub fn refusal_place(a: Placed) -> usize
    ensures { result ≡ placed_place a }
{
    match a {
        Ok(_) => 0,
        Err(refusal) => refusal.place(),
    }
}

pub fn cell_number(a: Placed) -> usize
    ensures { result ≡ cell_number a }
{
    match a {
        Ok(c) => c,
        Err(_) => 0,
    }
}

pub fn depth_number(a: Result<Depth, Refusal>) -> u8
    ensures { result ≡ (told_of a).number }
{
    match a {
        Ok(Depth::Solid) => 0,
        Ok(Depth::Dry) => 0,
        Ok(Depth::Deep(_)) => 0,
        Err(refusal) => refusal.number(),
    }
}

pub fn depth_place(a: Result<Depth, Refusal>) -> usize
    ensures { result ≡ (told_of a).place }
{
    match a {
        Ok(Depth::Solid) => 0,
        Ok(Depth::Dry) => 0,
        Ok(Depth::Deep(_)) => 0,
        Err(refusal) => refusal.place(),
    }
}

// 0 refused, 1 solid, 2 dry, 3 deep.
pub fn depth_kind(a: Result<Depth, Refusal>) -> u8
    ensures { result ≡ (told_of a).kind }
{
    match a {
        Ok(Depth::Solid) => 1,
        Ok(Depth::Dry) => 2,
        Ok(Depth::Deep(_)) => 3,
        Err(_) => 0,
    }
}

// 0 unless deep.
pub fn depth_value(a: Result<Depth, Refusal>) -> f32
    ensures { result ≡ (told_of a).value }
{
    match a {
        Ok(Depth::Solid) => 0.0,
        Ok(Depth::Dry) => 0.0,
        Ok(Depth::Deep(depth)) => depth,
        Err(_) => 0.0,
    }
}
