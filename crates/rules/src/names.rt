// The ends of the names (rule 4): they never fall, and the last of them, or 0, is the blob's length.
ghost use Rattle.std.specs.Prelude.{◌≡◌, ◌&&◌, eqb};
ghost use Rattle.format.specs.File.{rising, last_end};

pub fn ends(ends: &[u64], size: usize) -> bool
    ensures { result ≡ (rising 0 ends.now && eqb (last_end 0 ends.now) size) }
{
    let mut before: u64 = 0;
    for end in ends {
        if *end < before {
            return false;
        }
        before = *end;
    }
    before == size as u64
}
