#![tactic(auto)]
// Lent tables of words: cleared, and filled a row at a time.
ghost use Rattle.std.specs.Prelude.{◌≡◌, ◌+◌, ◌*◌, ◌/◌, ◌≤◌, ◌<◌, length, replicate, List, ℕ};
ghost use Rattle.std.proofs.lemmas.List.Edits.{sets};
ghost use Rattle.grammar.specs.Outcome.{Parser};
ghost use Rattle.tables.specs.Table.{front, ReadsRows, Left, records};

use grammar::{Cursor, Read};
use refusal::Refusal;

// Every word 0.
pub fn clear(t: &mut [u64])
    ensures { t.new ≡ replicate (length t.old) 0 }
{
    t.fill(0);
}

// Every word behind so many rows 0; the rows stay.
pub fn clear_behind(t: &mut [u64], rows: usize, width: usize)
    requires { 0 < width }
    ensures { t.new ≡ front (rows * width) t.old }
{
    if t.len() / width < rows {
        return;
    }
    t[rows * width..].fill(0);
}

// A row from a word on, for callers that have tested that there is a place for it.
pub fn store(t: &mut [u64], at: usize, row: &[u64])
    requires { at + length row.now ≤ length t.old }
    ensures { t.new ≡ sets t.old at row.now }
{
    t[at..at + row.len()].copy_from_slice(row);
}

// The records of a list, each a row of W words behind the places used of its table; `read` reads one. (It answers what converts
// to a row, since the bound of a closure may not name W.)
pub fn records<const W: usize, R: Into<[u64; W]>, F: Fn(Cursor) -> Read<R>>(
    table: u8,
    n: u64,
    c: Cursor,
    t: &mut [u64],
    from: usize,
    read: F,
) -> Read<usize>
    requires wide { 0 < W }
    requires callable { F.IsAlwaysCallable read }
    ensures { (s : List ℕ) (p : Parser (List ℕ)) → ReadsRows (F.post read) R.converts s p → Left (records table (length t.old / W) p n from s c) (λ row. row) W from t.old t.new result }
{
    let places = t.len() / W;
    let mut used = from;
    let mut c = c;
    for _ in 0..n {
        if places <= used {
            return Err(Refusal::Full { table });
        }
        let (record, next) = read(c)?;
        let row: [u64; W] = record.into();
        store(t, used * W, &row);
        c = next;
        used += 1;
    }
    Ok((used, c))
}
