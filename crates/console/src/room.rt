// How many cells a record asks room for, read from its sides before the reader tests it.
ghost use Rattle.std.specs.Prelude.{◌≡◌, ◌*◌, ◌≤◌};
ghost use Rattle.console.specs.Room.{room_for};

fn product(x: u8, y: u8, z: u8) -> usize
    ensures { result ≡ x * (y * z) }
{
    x as usize * (y as usize * z as usize)
}

// N by the lowest byte of each side, which is the side itself in any record that passes test 1; 0 where
// the sides are cut short or N is above `most`, so that the reader finds its slices too short and says so.
#[tactic(auto, using(crate::proofs::Rooms::room_short))]
pub fn room(rec: &[u8], most: usize) -> usize
    ensures value { result ≡ room_for rec.now most }
    ensures upper_bound { result ≤ most }
{
    if rec.len() < 16 {
        return 0;
    }
    let n = product(rec[4], rec[8], rec[12]);
    if n > most {
        return 0;
    }
    n
}
