#![tactic(auto)]
// The fields that several sections share: bytes, runs of bytes, strings, name indices, positions and chunks
// (`take` and `str` of `Cursor` in format/mod.rs; get_position and get_chunk of format/read.rs).
ghost use Rattle.std.specs.Prelude.{◌≡◌};
ghost use Rattle.grammar.specs.Combinators.{text, text_at};
ghost use Rattle.grammar.specs.Combinators as combinators;
ghost use Rattle.utf8.specs.Check.{is_utf8};
ghost use Rattle.format.specs.File as definition;
ghost use Rattle.format.specs.Rows.{bits};
ghost use Rattle.grammar.specs.Read.{answer};
ghost use Rattle.fields.specs.Answers.{text_is};

use format::records::{Chunk, NameIndex, Position};
use grammar::{Cursor, Read, Span};
use refusal::Refusal;

// The next byte.
pub fn byte(s: &[u8], c: Cursor) -> Read<u8>
    ensures { combinators.byte s.now c ≡ answer result }
{
    let at = c.at;
    if s.len() <= at {
        return Err(Refusal::Truncated);
    }
    Ok((s[at], c.advance(1)))
}

// A run of n bytes, all of them or none.
pub fn take(s: &[u8], c: Cursor, n: u64) -> Read<Span>
    ensures { text n s.now c ≡ text_is s.now result }
{
    let at = c.at;
    if s.len() < at {
        return Err(Refusal::Truncated);
    }
    let left = s.len() - at;
    if (left as u64) < n {
        return Err(Refusal::Truncated);
    }
    let size = n as usize;
    Ok((Span { start: at, size }, c.advance(size)))
}

// A count of bytes and the bytes.
#[tactic(auto, using(grammar::proofs::Read::reads), unfolding(format::specs::File::bytes))]
pub fn run(s: &[u8], c: Cursor) -> Read<Span>
    ensures { definition.bytes s.now c ≡ text_is s.now result }
{
    let (count, c) = varint::uvarint(s, c)?;
    take(s, c, count)
}

// Whether a run is UTF-8; what lies past the end is not there.
pub fn is_text(s: &[u8], span: Span) -> bool
    ensures { result ≡ is_utf8 (text_at s.now span).bytes }
{
    utf8::is_utf8_at(s, span.start, span.size)
}

// A string: the bytes are taken before they are judged.
#[tactic(auto, using(grammar::proofs::Read::reads), unfolding(format::specs::File::string))]
pub fn string(s: &[u8], c: Cursor) -> Read<Span>
    ensures { definition.string s.now c ≡ text_is s.now result }
{
    let (span, c) = run(s, c)?;
    if is_text(s, span) {
        Ok((span, c))
    } else {
        Err(Refusal::BadUtf8)
    }
}

#[tactic(auto, using(grammar::proofs::Read::reads), unfolding(format::specs::File::name_index))]
pub fn name_index(s: &[u8], c: Cursor) -> Read<NameIndex>
    ensures { definition.name_index s.now c ≡ answer result }
{
    let (value, c) = varint::index(s, c)?;
    Ok((NameIndex(value), c))
}

// Two smalls; line 0 means none, whatever the column. Two single bytes, which nearly all are, by one test: this much is
// inlined, and its answer does not go through memory. Called from one place, the rest would be inlined here.
pub fn position(s: &[u8], c: Cursor) -> Read<Option<Position>>
    ensures { definition.position s.now c ≡ answer result }
{
    let at = c.at;
    if s.len() <= at {
        return two_smalls(s, c);
    }
    if s.len() - at < 2 {
        return two_smalls(s, c);
    }
    let line = s[at];
    let column = s[at + 1];
    if 128 <= line | column {
        return two_smalls(s, c);
    }
    Ok((at_line(wide(line), wide(column)), c.advance(2)))
}

fn wide(b: u8) -> u16
    ensures { result ≡ b }
{
    b as u16
}

#[tactic(auto, using(grammar::proofs::Read::reads), unfolding(format::specs::File::position))]
fn two_smalls(s: &[u8], c: Cursor) -> Read<Option<Position>>
    ensures { definition.position s.now c ≡ answer result }
{
    let (line, c) = varint::small(s, c)?;
    let (column, c) = varint::small(s, c)?;
    Ok((at_line(line, column), c))
}

fn at_line(line: u16, column: u16) -> Option<Position>
    ensures { result ≡ definition.placed line column }
{
    if line == 0 {
        None
    } else {
        Some(Position { line, column })
    }
}

#[tactic(auto, using(grammar::proofs::Read::reads), unfolding(format::specs::File::chunk))]
pub fn chunk(s: &[u8], c: Cursor) -> Read<Chunk>
    ensures { definition.chunk s.now c ≡ answer result }
{
    let (entry, c) = varint::index(s, c)?;
    let (end, c) = varint::index(s, c)?;
    let (slots, c) = varint::small(s, c)?;
    Ok((Chunk { entry, end, slots }, c))
}

// The 64 bits of a signed number, as a row keeps them: of a negative one the complement of its complement.
pub fn bits_of(z: i64) -> u64
    ensures { result ≡ bits z }
{
    if 0 <= z { z as u64 } else { !(!z as u64) }
}
