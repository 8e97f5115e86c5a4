// Eight bytes as one word.
ghost use Rattle.std.specs.Prelude.{◌≡◌};
ghost use Rattle.grammar.specs.Combinators as definition;
ghost use Rattle.grammar.specs.Read.{answer};

use grammar::{Cursor, Read};
use refusal::Refusal;

// Eight bytes, low first.
#[tactic(auto, using(crate::proofs::Taken::taken), unfolding(grammar::specs::Combinators::fixed))]
pub fn word(s: &[u8], c: Cursor) -> Read<u64>
    ensures { definition.fixed 8 s.now c ≡ answer result }
{
    let at = c.at;
    if s.len() < at || s.len() - at < 8 {
        return Err(Refusal::Truncated);
    }
    let word = u64::from_le_bytes([
        s[at],
        s[at + 1],
        s[at + 2],
        s[at + 3],
        s[at + 4],
        s[at + 5],
        s[at + 6],
        s[at + 7],
    ]);
    Ok((word, c.advance(8)))
}
