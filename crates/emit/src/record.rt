// Kinds of records by the words of their rows, and the loops over the rows of a table.
ghost use Rattle.std.specs.Prelude.{ℕ, ◌≡◌, ◌+◌, ◌*◌, ◌≤◌, ◌<◌, List, length, drop};
ghost use Rattle.rows.specs.Back.{cut, word};
ghost use Rattle.written.specs.Put.{put_list};
ghost use Rattle.model.specs.Tables.{shared};
ghost use Rattle.emit.specs.Shares.{SharesFit, owned};
ghost use Rattle.emit.specs.Puts.{Puts};

use crate::base::number;
use rows::row;

pub trait Record<const N: usize> {
    // What is put for a row.
    ghost bytes: { Self → List ℕ → List ℕ };

    fn put(&self, out: &mut [u8], at: usize, row: [u64; N]) -> usize
        ensures { Puts (bytes self.now row.entry) out.old at out.new result };
}

// A count and the records of so many rows, from a place of their table on.
pub fn list<const N: usize, R: Record<N>>(
    out: &mut [u8],
    at: usize,
    kind: &R,
    t: &[u64],
    from: usize,
    n: usize,
) -> usize
    requires some_width { 0 < N }
    requires from_in_bounds { (from + n) * N ≤ length t.now }
    ensures { Puts (put_list (R.bytes kind.now) (cut N n (drop (from * N) t.now))) out.old at out.new result }
{
    let mut place = number(out, at, n as u64);
    for j in from..from + n {
        place = kind.put(out, place, row::of(t, j * N));
    }
    place
}

// A kind of record that owns items, the next rows of another table: one of its words says how many.
pub trait Owner<const N: usize, const M: usize> {
    // The word that says it.
    ghost counted: { ℕ };

    // What is put for a row and for those of its items.
    ghost bytes: { Self → List ℕ → List (List ℕ) → List ℕ };

    fn owned(row: [u64; N]) -> usize
        ensures { result ≡ word row.entry counted };

    fn put(&self, out: &mut [u8], at: usize, row: [u64; N], items: &[u64], from: usize) -> usize
        requires { (from + word row counted) * M ≤ length items.now }
        ensures { Puts (bytes self.now row.entry (cut M (word row.entry counted) (drop (from * M) items.now))) out.old at out.new result };
}

// A count and so many records, each with its share of the items.
pub fn owners<const N: usize, const M: usize, R: Owner<N, M>>(
    out: &mut [u8],
    at: usize,
    kind: &R,
    t: &[u64],
    used: usize,
    items: &[u64],
) -> usize
    requires some_width { 0 < N }
    requires some_item_width { 0 < M }
    requires shares_fit { SharesFit R.counted N used t.now M items.now }
    ensures { Puts (put_list (λ w. R.bytes kind.now w.whole w.items) (shared (λ row. word row R.counted) (cut N used t.now) (cut M (owned R.counted N used t.now) items.now))) out.old at out.new result }
{
    let mut place = number(out, at, used as u64);
    let mut from: usize = 0;
    for j in 0..used {
        let row = row::of(t, j * N);
        place = kind.put(out, place, row, items, from);
        from += R::owned(row);
    }
    place
}
