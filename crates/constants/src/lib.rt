#![tactic(auto)]
// The constants of an artifact: a tree that is read into one table, each constant before its items (get_constant of
// format/read.rs, where the tree is built of values).
ghost use mathlib.Core.List.{foldl};
ghost use Rattle.std.specs.Prelude.{◌≡◌, ◌*◌, ◌/◌, length};
ghost use Rattle.grammar.specs.Combinators.{Text};
ghost use Rattle.fields.specs.Answers.{text_is};
ghost use Rattle.tables.specs.Table.{rows};
ghost use Rattle.format.specs.Artifact.{behind};
ghost use Rattle.format.specs.File as definition;
ghost use Rattle.format.specs.Rows.{constant_rows};
ghost use Rattle.constants.specs.Kept.{Kept, KeptAll};
ghost use Rattle.constants.specs.Parts as parts;

use format::tags::Limit;
use grammar::{Cursor, Read, Span};
use refusal::Refusal;

pub mod heads;
pub mod tails;
pub mod words;

// How many top constants there are, and the places of the table that all of them use.
#[derive(Clone, Copy)]
pub struct Counts {
    pub tops: usize,
    pub used: usize,
}

// A count, then each constant at depth 0.
pub fn constants(s: &[u8], c: Cursor, t: &mut [u64]) -> Read<Counts>
    ensures { KeptAll (definition.constants (length t.old / 8) s.now c) t.old t.new result }
{
    let (n, c) = varint::uvarint(s, c)?;
    let (used, c) = items(s, c, Limit::DEPTH + 1, n, false, 0, t)?;
    let counts = Counts {
        tops: n as usize,
        used,
    };
    Ok((counts, c))
}

// A constant at a depth that leaves so many levels: depth before Full, and Full before the tag. Its place is kept free
// while its items are read, and its row is stored last.
#[cycle(constant_items)]
fn constant(
    s: &[u8],
    c: Cursor,
    levels: usize,
    used: usize,
    key: Span,
    t: &mut [u64],
) -> Read<usize>
    ensures { Kept (definition.constant (length t.old / 8) levels used s.now c) (behind Text levels used) (constant_rows levels key) (used * 8) t.old t.new result }
{
    if levels == 0 {
        return Err(Refusal::ConstantTooDeep);
    }
    if t.len() / 8 <= used {
        return Err(Refusal::Full { table: 2 });
    }
    let (head, c) = heads::head_of(s, c)?;
    let (behind, c) = items(s, c, levels - 1, head.items, head.keyed, used + 1, t)?;
    tails::closed(s, c, head, key, used, behind, t)
}

// n constants one level deeper, each behind its key where they have keys.
#[cycle(constant_items)]
fn items(
    s: &[u8],
    c: Cursor,
    levels: usize,
    n: u64,
    keyed: bool,
    from: usize,
    t: &mut [u64],
) -> Read<usize>
    ensures { Kept (parts.items (length t.old / 8) levels keyed n from s.now c) (foldl (parts.item_behind levels) from) (rows (parts.item_rows levels)) (from * 8) t.old t.new result }
{
    let mut at = c;
    let mut used = from;
    for _ in 0..n {
        let (key, c) = item_key(s, at, keyed)?;
        (used, at) = constant(s, c, levels, used, key, t)?;
    }
    Ok((used, at))
}

// The key of a map's entry; other items have none.
#[tactic(auto, unfolding(crate::specs::Parts::item_key, grammar::specs::Outcome::pure))]
fn item_key(s: &[u8], c: Cursor, keyed: bool) -> Read<Span>
    ensures { parts.item_key keyed s.now c ≡ text_is s.now result }
{
    if keyed {
        fields::string(s, c)
    } else {
        Ok((Span { start: 0, size: 0 }, c))
    }
}
