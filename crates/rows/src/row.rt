// The words of a row, from its first word on, and the rows of a table that are used. Which rows are whole was tested before (rule 1).
ghost use Rattle.std.specs.Prelude.{◌≡◌, ◌+◌, ◌*◌, ◌<◌, ◌≤◌, length, take, drop};
ghost use Rattle.rows.specs.Back.{cut};

pub fn of<const N: usize>(t: &[u64], at: usize) -> [u64; N]
    requires { at + N ≤ length t.now }
    ensures { result ≡ take N (drop at t.now) }
{
    let mut words = [0; N];
    words.copy_from_slice(&t[at..at + N]);
    words
}

// The words of a table as its rows, where they stand.
pub fn cut<const N: usize>(t: &[u64], used: usize) -> &[[u64; N]]
    requires nonzero { 0 < N }
    requires there { used * N ≤ length t.now }
    ensures { result.now ≡ cut N used t.now }
{
    let (rows, _) = t.as_chunks::<N>();
    &rows[..used]
}
