// The writer's sections 5 to 7: flags, interface masses and parts of liquid cells, by cell number.
ghost use Rattle.std.specs.Prelude.{◌≡◌, cond, [], ◌+◌, ◌*◌, ◌≤◌, eqb, pos, length, get_or};
ghost use Rattle.std.proofs.lemmas.List.Edits.{sets};
ghost use Rattle.grid.specs.State.{by_flag, liquid, flag_of};
ghost use Rattle.record.specs.Bytes.{i32_of};
ghost use Rattle.record.specs.Layout.{interfaces, liquids, mass_bytes, cell_numbers, part_numbers};

use record::count::{one_interface, one_liquid};
use record::number::put_i32;

pub fn put_flags(room: &mut [u8], at: usize, flags: &[u8])
    requires { at + length flags.now ≤ length room.old }
    ensures { room.new ≡ sets room.old at flags.now }
{
    // One by one: `copy_from_slice` would ask memmove of whoever links with the library.
    for c in 0..flags.len() {
        room[at + c] = flags[c];
    }
}

// The mass of an interface cell; nothing of another.
fn put_mass(room: &mut [u8], at: usize, flag: u8, m: i32)
    requires { at + 4 * cond (eqb flag 1) 1 0 ≤ length room.old }
    ensures { room.new ≡ sets room.old at (by_flag flag [] (i32_of m) [] []) }
{
    if flag != 1 {
        return;
    }
    put_i32(room, at, m);
}

pub fn put_masses(room: &mut [u8], from: usize, flags: &[u8], masses: &[i32])
    requires flags_in_bounds { from + 4 * interfaces (length flags.now) (flag_of flags.now) ≤ length room.old }
    requires masses_len { length masses.now ≡ length flags.now }
    ensures { room.new ≡ sets room.old from (mass_bytes (length flags.now) (flag_of flags.now) (λ c. get_or masses.now c (pos 0))) }
{
    let mut at = from;
    for c in 0..flags.len() {
        let flag = flags[c];
        put_mass(room, at, flag, masses[c]);
        at += 4 * one_interface(flag);
    }
}

// The w parts of a cell that begin at `from`.
fn put_cell(room: &mut [u8], at: usize, parts: &[i32], from: usize, w: usize)
    requires w_in_bounds { at + 4 * w ≤ length room.old }
    requires w_in_bounds_2 { from + w ≤ length parts.now }
    ensures { room.new ≡ sets room.old at (cell_numbers w (λ k. get_or parts.now (from + k) (pos 0))) }
{
    for k in 0..w {
        put_i32(room, at + 4 * k, parts[from + k]);
    }
}

// The parts of a liquid cell; nothing of another.
fn put_liquid(room: &mut [u8], at: usize, flag: u8, parts: &[i32], from: usize, w: usize)
    requires flag_in_bounds { at + 4 * w * cond (liquid flag) 1 0 ≤ length room.old }
    requires w_in_bounds { from + w ≤ length parts.now }
    ensures { room.new ≡ sets room.old at (by_flag flag [] (cell_numbers w (λ k. get_or parts.now (from + k) (pos 0))) (cell_numbers w (λ k. get_or parts.now (from + k) (pos 0))) []) }
{
    if one_liquid(flag) == 0 {
        return;
    }
    put_cell(room, at, parts, from, w);
}

// The parts of every liquid cell, w each.
pub fn put_parts(room: &mut [u8], from: usize, flags: &[u8], parts: &[i32], w: usize)
    requires w_bound { w ≤ 19 }
    requires flags_in_bounds { from + 4 * w * liquids (length flags.now) (flag_of flags.now) ≤ length room.old }
    requires parts_len { length parts.now ≡ w * length flags.now }
    ensures { room.new ≡ sets room.old from (part_numbers w (length flags.now) (flag_of flags.now) (λ c k. get_or parts.now (w * c + k) (pos 0))) }
{
    let mut at = from;
    for (c, flag) in flags.iter().enumerate() {
        put_liquid(room, at, *flag, parts, w * c, w);
        at += 4 * w * one_liquid(*flag);
    }
}
