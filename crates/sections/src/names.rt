// Names: their ends into a table, and the blob that the ends cut (section 3 of document 01).
ghost use Rattle.std.specs.Prelude.{◌≡◌, length};
ghost use Rattle.grammar.specs.Combinators.{enough};
ghost use Rattle.grammar.specs.Number as numbers;
ghost use Rattle.grammar.specs.Read.{answer};
ghost use Rattle.tables.specs.Table.{records};
ghost use Rattle.format.specs.File as definition;
ghost use Rattle.sections.specs.Names.{joined, LeftEnds, LeftNames};

use grammar::{Cursor, Read, Span};
use refusal::{NamesFault, Refusal};

// How many names there are, and the blob that their ends cut.
#[derive(Clone, Copy)]
pub struct NameList {
    pub used: usize,
    pub blob: Span,
}

// The count is at most the bytes left. The blob is judged by the rule in its order.
#[tactic(auto, using(grammar::proofs::Read::reads, crate::proofs::Ending::names_refused), unfolding(format::specs::File::names))]
pub fn names(s: &[u8], c: Cursor, t: &mut [u64]) -> Read<NameList>
    ensures { LeftNames (definition.names (length t.old) s.now c) s.now t.old t.new result }
{
    let (n, c) = varint::uvarint(s, c)?;
    if !has(s, c, n) {
        return Err(Refusal::Truncated);
    }
    let ((used, last), c) = end_rows(s, c, n, t)?;
    let (blob, c) = fields::run(s, c)?;
    let Some(last) = last else {
        return Err(Refusal::Names(NamesFault::Falls));
    };
    if last as usize != blob.size {
        return Err(Refusal::Names(NamesFault::LastEnd));
    }
    if !fields::is_text(s, blob) {
        return Err(Refusal::Names(NamesFault::NotUtf8));
    }
    Ok((NameList { used, blob }, c))
}

// Whether n bytes stand from a place on.
fn has(s: &[u8], c: Cursor, n: u64) -> bool
    ensures { result ≡ enough n s.now c }
{
    c.at <= s.len() && n <= (s.len() - c.at) as u64
}

// The last end, 0 of none; nothing where one fell.
fn join(last: Option<u32>, end: u32) -> Option<u32>
    ensures { result ≡ joined last end }
{
    match last {
        Some(last) if last <= end => Some(end),
        _ => None,
    }
}

// Not the loop of tables: what the rule asks of the ends is kept while they are read, so that no second loop goes over them.
fn end_rows(s: &[u8], c: Cursor, n: u64, t: &mut [u64]) -> Read<(usize, Option<u32>)>
    ensures { LeftEnds (records 1 (length t.old) numbers.index n 0 s.now c) t.old t.new result }
{
    let mut at = c;
    let mut used: usize = 0;
    let mut last = Some(0);
    for _ in 0..n {
        if t.len() <= used {
            return Err(Refusal::Full { table: 1 });
        }
        let (end, next) = end(s, at)?;
        t[used] = end as u64;
        last = join(last, end);
        at = next;
        used += 1;
    }
    Ok(((used, last), at))
}

// An end. Those of a long blob take three bytes each, so where one is over is foreseen: read byte by byte, none waits for the one
// before it, as it would where eight bytes are taken as a word.
fn end(s: &[u8], c: Cursor) -> Read<u32>
    ensures { numbers.index s.now c ≡ answer result }
{
    let at = c.at;
    if s.len() <= at || s.len() - at < 3 {
        return varint::index(s, c);
    }
    let low = s[at];
    let mid = s[at + 1];
    let top = s[at + 2];
    if low < 128 || mid < 128 || 128 <= top {
        return varint::index(s, c);
    }
    let value = u32::from(low - 128) + u32::from(mid - 128) * 128 + u32::from(top) * 16384;
    Ok((value, c.advance(3)))
}
