// A switch's cases: blocks and a constant, which is one of the top constants.
ghost use Rattle.std.specs.Prelude.{◌≡◌, ◌/◌, length};
ghost use Rattle.tables.specs.Table.{Left};
ghost use Rattle.format.specs.File as definition;
ghost use Rattle.format.specs.Rows.{case_row};
ghost use Rattle.grammar.specs.Read.{answer};

use format::records::{Case, ConstantIndex};
use grammar::{Cursor, Read};
use refusal::Refusal;

// The constant is tested at once; a refusal names the place of the index and the index.
#[tactic(auto, using(grammar::proofs::Read::reads, crate::proofs::Places::place_is), unfolding(format::specs::File::case))]
pub fn read_case(s: &[u8], c: Cursor, tops: usize) -> Read<Case>
    ensures { definition.case tops s.now c ≡ answer result }
{
    let (blocks, c) = varint::index(s, c)?;
    let (k, next) = varint::index(s, c)?;
    if (k as usize) < tops {
        let constant = ConstantIndex(k);
        Ok((Case { blocks, constant }, next))
    } else {
        Err(Refusal::BadIndex {
            place: c.at,
            index: k,
        })
    }
}

// A count, then the cases, behind the places used of their table.
#[tactic(auto, using(grammar::proofs::Read::reads), unfolding(format::specs::File::list))]
pub fn case_list(s: &[u8], c: Cursor, tops: usize, t: &mut [u64], used: usize) -> Read<usize>
    ensures { Left (definition.list 8 (length t.old / 2) (definition.case tops) used s.now c) case_row 2 used t.old t.new result }
{
    let (n, c) = varint::uvarint(s, c)?;
    let read = |c: Cursor| -> Read<Case>
        ensures { definition.case tops s.entry.now c ≡ answer result }
    { read_case(s, c, tops) };
    tables::records(8, n, c, t, used, read)
}
