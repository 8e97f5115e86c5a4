// How constants follow each other: behind a constant's row stand those of its items, each with its own items behind it. Whatever
// the rows say, no count wraps: where more is owed than rows are left, the walk is at the end.
ghost use Rattle.std.specs.Prelude.{◌≡◌, ℕ, Bool, List};
ghost use Rattle.format.specs.Artifact.{levels};
ghost use Rattle.model.specs.Lent.{every};
ghost use Rattle.model.specs.Rules as definition;
ghost use Rattle.rules.specs.Walks.{Walk, Decides, reached};

use format::tags::Limit;

// How many items a row owns: an array, a map and a function pointer own as many as they say.
fn owns(row: &[u64; 8]) -> u64
    ensures { result ≡ definition.owns row.now }
{
    match row[0] {
        0x07 | 0x08 | 0x0D => row[5],
        _ => 0,
    }
}

// The rows behind the next n constants and all that they own, and whether nothing is owed there. Each row pays for itself and owes its
// items. No `for`: it ends where nothing is owed, and hands on the rows that are left.
fn walk(rows: &[[u64; 8]], n: u64) -> (&[[u64; 8]], bool)
    ensures { Walk rows.now n result.0.now result.1 }
{
    if (rows.len() as u64) < n {
        return (&rows[..0], false);
    }
    let mut rest = rows;
    let mut owed = n;
    while let Some((row, behind)) = rest.split_first() {
        if owed == 0 {
            return (rest, true);
        }
        let more = owns(row);
        if rest.len() as u64 - owed < more {
            return (&rest[..0], false);
        }
        owed = owed - 1 + more;
        rest = behind;
    }
    (rest, true)
}

// The top constants and all that they own are the rows, neither more nor less.
pub fn exactly(rows: &[[u64; 8]], tops: usize) -> bool
    ensures { result ≡ definition.exactly rows.now tops }
{
    let (rest, even) = walk(rows, tops as u64);
    even & rest.is_empty()
}

// A test of the key of each of a map's n entries. Where the map claims more entries than rows are left, they end with the rows.
fn entries<F: Fn(&[u64; 8]) -> bool>(rows: &[[u64; 8]], n: u64, keeps: &F) -> bool
    requires { F.IsAlwaysCallable keeps.now }
    ensures { (test : List ℕ → Bool) → Decides (F.post keeps.now) test → result ≡ every test (definition.entries n rows.now) }
{
    let mut rest = rows;
    for _ in 0..n {
        let Some((row, behind)) = rest.split_first() else {
            return true;
        };
        if !keeps(row) {
            return false;
        }
        let (next, _) = walk(behind, owns(row));
        rest = next;
    }
    true
}

// A test of the keys of all maps. Each map's entries are walked over with all that they own, so a row is passed once for each map that
// it stands in, and once for itself: at most the square of the rows, and for tables that keep rules 1 and 6 at most 65 times the rows.
pub fn keys<F: Fn(&[u64; 8]) -> bool>(rows: &[[u64; 8]], keeps: F) -> bool
    requires { F.IsAlwaysCallable keeps }
    ensures { (test : List ℕ → Bool) → Decides (F.post keeps) test → result ≡ every test (definition.keyed rows.now) }
{
    let mut rest = rows;
    // A `for` over the rows would lack those behind each.
    while let Some((row, behind)) = rest.split_first() {
        if row[0] == 0x08 && !entries(behind, row[5], &keeps) {
            return false;
        }
        rest = behind;
    }
    true
}

// The rows behind the next n constants, if the levels do for them. It calls itself for the items of each that has some, with one level
// less: however deep the rows say that they are, it stops where no level is left.
fn reach(rows: &[[u64; 8]], levels: usize, n: u64) -> Option<&[[u64; 8]]>
    ensures { reached result ≡ definition.within levels n rows.now }
{
    if n == 0 {
        return Some(rows);
    }
    if levels == 0 {
        return None;
    }
    let mut rest = rows;
    for _ in 0..n {
        let Some((row, behind)) = rest.split_first() else {
            return Some(rest);
        };
        let items = owns(row);
        if items == 0 {
            rest = behind;
        } else {
            let next = reach(behind, levels - 1, items)?;
            rest = next;
        }
    }
    Some(rest)
}

// Top constants stand at depth 0, and the deepest at 64.
pub fn shallow(rows: &[[u64; 8]], tops: usize) -> bool
    ensures { result ≡ definition.not_too_deep (definition.within levels tops rows.now) }
{
    reach(rows, Limit::DEPTH + 1, tops as u64).is_some()
}
