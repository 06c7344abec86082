// The writer's sections 5 to 7, each with its count, and the length of a record.
ghost use Rattle.std.specs.Prelude.{◌≡◌, [], ◌∷◌, ◌+◌, ◌*◌, ◌≤◌, pos, length, get_or};
ghost use Rattle.std.proofs.lemmas.List.Edits.{sets};
ghost use Rattle.grid.specs.State.{flag_of};
ghost use Rattle.record.specs.Places.{end_from};
ghost use Rattle.record.specs.Layout.{section, interfaces, liquids, mass_bytes, part_numbers, cell_sections};

use crate::front::put_count;
use crate::put::{put_flags, put_masses, put_parts};
use record::count::{interface_cells, liquid_cells};

pub fn put_flag_section(room: &mut [u8], at: usize, flags: &[u8])
    requires flags_in_bounds { at + 4 + length flags.now ≤ length room.old }
    requires flags_len_bound { length flags.now ≤ 262144 }
    ensures { room.new ≡ sets room.old at (section (length flags.now) (flags.now ∷ [])) }
{
    put_count(room, at, flags.len());
    put_flags(room, at + 4, flags);
}

pub fn put_mass_section(room: &mut [u8], at: usize, flags: &[u8], masses: &[i32])
    requires flags_in_bounds { at + 4 + 4 * interfaces (length flags.now) (flag_of flags.now) ≤ length room.old }
    requires flags_len_bound { length flags.now ≤ 262144 }
    requires masses_len { length masses.now ≡ length flags.now }
    ensures { room.new ≡ sets room.old at (section (interfaces (length flags.now) (flag_of flags.now)) (mass_bytes (length flags.now) (flag_of flags.now) (λ c. get_or masses.now c (pos 0)) ∷ [])) }
{
    put_count(room, at, interface_cells(flags));
    put_masses(room, at + 4, flags, masses);
}

fn put_part_section(room: &mut [u8], at: usize, flags: &[u8], parts: &[i32], w: usize)
    requires w_bound { w ≤ 19 }
    requires flags_in_bounds { at + 4 + 4 * w * liquids (length flags.now) (flag_of flags.now) ≤ length room.old }
    requires flags_len_bound { length flags.now ≤ 262144 }
    requires parts_len { length parts.now ≡ w * length flags.now }
    ensures { room.new ≡ sets room.old at (section (w * liquids (length flags.now) (flag_of flags.now)) (part_numbers w (length flags.now) (flag_of flags.now) (λ c k. get_or parts.now (w * c + k) (pos 0)) ∷ [])) }
{
    put_count(room, at, w * liquid_cells(flags));
    put_parts(room, at + 4, flags, parts, w);
}

// The bytes of a record of these flags whose section 5 begins at `from`, with w parts a cell.
pub fn record_length(flags: &[u8], from: usize, w: usize) -> usize
    requires flags_len_bound { length flags.now ≤ 262144 }
    requires from_bound { from ≤ 96 }
    requires w_bound { w ≤ 19 }
    ensures { result ≡ end_from from (length flags.now) (interfaces (length flags.now) (flag_of flags.now)) (w * liquids (length flags.now) (flag_of flags.now)) }
{
    from + 12 + flags.len() + 4 * interface_cells(flags) + 4 * (w * liquid_cells(flags))
}

// Sections 5 to 7 from byte `from` on, with w parts a cell.
pub fn put_cells(
    room: &mut [u8],
    from: usize,
    flags: &[u8],
    parts: &[i32],
    masses: &[i32],
    w: usize,
)
    requires w_bound { w ≤ 19 }
    requires flags_in_bounds { end_from from (length flags.now) (interfaces (length flags.now) (flag_of flags.now)) (w * liquids (length flags.now) (flag_of flags.now)) ≤ length room.old }
    requires flags_len_bound { length flags.now ≤ 262144 }
    requires parts_len { length parts.now ≡ w * length flags.now }
    requires masses_len { length masses.now ≡ length flags.now }
    ensures { room.new ≡ sets room.old from (cell_sections w (length flags.now) flags.now (λ c. get_or masses.now c (pos 0)) (λ c k. get_or parts.now (w * c + k) (pos 0))) }
{
    let n = flags.len();
    let at = from + 8 + n + 4 * interface_cells(flags);
    put_flag_section(room, from, flags);
    put_mass_section(room, from + 4 + n, flags, masses);
    put_part_section(room, at, flags, parts, w);
}
