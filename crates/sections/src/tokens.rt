// Operator tokens: strings, kept as spans (section 5 of document 01).
ghost use Rattle.std.specs.Prelude.{◌≡◌, ◌/◌, length};
ghost use Rattle.tables.specs.Table.{Left, rowed};
ghost use Rattle.format.specs.File as definition;
ghost use Rattle.format.specs.Rows.{token_row};
ghost use Rattle.grammar.specs.Read.{answer};

use grammar::{Cursor, Read};

#[tactic(auto, using(grammar::proofs::Read::reads), unfolding(format::specs::File::tokens, format::specs::File::list, tables::specs::Table::rowed))]
pub fn tokens(s: &[u8], c: Cursor, t: &mut [u64]) -> Read<usize>
    ensures { Left (definition.tokens (length t.old / 2) s.now c) token_row 2 0 t.old t.new result }
{
    let (n, c) = varint::uvarint(s, c)?;
    // The row is made here: no other crate than that of spans or of arrays could say how a span becomes one.
    let read = |c: Cursor| -> Read<[u64; 2]>
        ensures { rowed token_row definition.string s.entry.now c ≡ answer result }
    {
        let (token, c) = fields::string(s, c)?;
        Ok(([token.start as u64, token.size as u64], c))
    };
    tables::records(3, n, c, t, 0, read)
}
