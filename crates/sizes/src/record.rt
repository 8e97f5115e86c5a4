// Kinds of records by the words of their rows, and the loop over the rows of a table.
ghost use Rattle.std.specs.Prelude.{ℕ, ◌*◌, ◌≤◌, List, length};
ghost use Rattle.grammar.specs.Combinators.{put_all};
ghost use Rattle.rows.specs.Back.{cut};
ghost use Rattle.sizes.specs.Counts.{Counts};

use rows::row;

pub trait Counted<const N: usize> {
    // What is counted of a row.
    ghost bytes: { Self → List ℕ → List ℕ };

    fn count(&self, at: usize, row: [u64; N]) -> usize
        requires { at ≤ 1048577 }
        ensures { Counts (bytes self.now row.entry) at result };
}

// The records of the first rows, without their count.
pub fn rows<const N: usize, R: Counted<N>>(at: usize, kind: &R, t: &[u64], used: usize) -> usize
    requires at_bound { at ≤ 1048577 }
    requires used_in_bounds { used * N ≤ length t.now }
    ensures { Counts (put_all (R.bytes kind.now) (cut N used t.now)) at result }
{
    let mut place = at;
    for j in 0..used {
        place = kind.count(place, row::of(t, j * N));
    }
    place
}
