// The position table: all its bytes are taken, then it is checked (section 10 of document 01).
ghost use Rattle.std.specs.Prelude.{◌≡◌};
ghost use Rattle.fields.specs.Answers.{text_is};
ghost use Rattle.format.specs.File as definition;

use grammar::{Cursor, Read, Span};

// Length 0 means stripped.
#[tactic(auto, using(grammar::proofs::Read::reads), unfolding(format::specs::File::positions, format::specs::File::sound))]
pub fn positions(s: &[u8], c: Cursor) -> Read<Span>
    ensures { definition.positions s.now c ≡ text_is s.now result }
{
    let (table, c) = fields::run(s, c)?;
    if table.size == 0 {
        return Ok((table, c));
    }
    let end = table.start + table.size;
    pos::check_long(&s[table.start..end])?;
    Ok((table, c))
}
