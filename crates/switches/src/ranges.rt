// A switch's ranges: two signed numbers, whether the second is included, and a target.
ghost use Rattle.std.specs.Prelude.{◌≡◌, ◌/◌, length};
ghost use Rattle.tables.specs.Table.{Left};
ghost use Rattle.format.specs.File as definition;
ghost use Rattle.format.specs.Rows.{range_row};
ghost use Rattle.grammar.specs.Read.{answer};

use format::records::Range;
use grammar::{Cursor, Read};

// Any byte but 0 means inclusive.
#[tactic(auto, using(grammar::proofs::Read::reads), unfolding(format::specs::File::case_range))]
pub fn read_range(s: &[u8], c: Cursor) -> Read<Range>
    ensures { definition.case_range s.now c ≡ answer result }
{
    let (from, c) = varint::ivarint(s, c)?;
    let (to, c) = varint::ivarint(s, c)?;
    let (byte, c) = fields::byte(s, c)?;
    let (target, c) = varint::index(s, c)?;
    let inclusive = byte != 0;
    Ok((
        Range {
            from,
            to,
            inclusive,
            target,
        },
        c,
    ))
}

// A count, then the ranges, behind the places used of their table.
#[tactic(auto, using(grammar::proofs::Read::reads), unfolding(format::specs::File::list))]
pub fn range_list(s: &[u8], c: Cursor, t: &mut [u64], used: usize) -> Read<usize>
    ensures { Left (definition.list 9 (length t.old / 4) definition.case_range used s.now c) range_row 4 used t.old t.new result }
{
    let (n, c) = varint::uvarint(s, c)?;
    let read = |c: Cursor| -> Read<Range>
        ensures { definition.case_range s.entry.now c ≡ answer result }
    { read_range(s, c) };
    tables::records(9, n, c, t, used, read)
}
