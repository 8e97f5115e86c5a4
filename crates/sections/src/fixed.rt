#![tactic(auto, using(grammar::proofs::Read::answer_refused, crate::proofs::Taken::fields))]
// Fields of a fixed number of bytes, low first (`take` of `Cursor` in format/mod.rs).
ghost use Rattle.std.specs.Prelude.{◌≡◌};
ghost use Rattle.grammar.specs.Combinators.{taking};
ghost use Rattle.grammar.specs.Combinators as combinators;
ghost use Rattle.grammar.specs.Read.{answer};
ghost use Rattle.sections.specs.Answers.{run};

use grammar::{Cursor, Read};
use refusal::Refusal;

// The next N bytes, all of them or none.
pub fn bytes<const N: usize>(s: &[u8], c: Cursor) -> Read<[u8; N]>
    ensures { taking N (run N) s.now c ≡ answer result }
{
    let at = c.at;
    if s.len() < at || s.len() - at < N {
        return Err(Refusal::Truncated);
    }
    let mut bytes = [0; N];
    bytes.copy_from_slice(&s[at..at + N]);
    Ok((bytes, c.advance(N)))
}

pub fn two(s: &[u8], c: Cursor) -> Read<u16>
    ensures { combinators.fixed 2 s.now c ≡ answer result }
{
    let (bytes, c) = bytes::<2>(s, c)?;
    Ok((u16::from_le_bytes(bytes), c))
}

pub fn four(s: &[u8], c: Cursor) -> Read<u32>
    ensures { combinators.fixed 4 s.now c ≡ answer result }
{
    let (bytes, c) = bytes::<4>(s, c)?;
    Ok((u32::from_le_bytes(bytes), c))
}

pub fn eight(s: &[u8], c: Cursor) -> Read<u64>
    ensures { combinators.fixed 8 s.now c ≡ answer result }
{
    let (bytes, c) = bytes::<8>(s, c)?;
    Ok((u64::from_le_bytes(bytes), c))
}
