// Assign records: two tokens, kept as spans, and their names (section 5 of document 01).
ghost use Rattle.std.specs.Prelude.{◌≡◌, ◌/◌, length};
ghost use Rattle.tables.specs.Table.{Left};
ghost use Rattle.format.specs.File as definition;
ghost use Rattle.format.specs.Rows.{assign_row};
ghost use Rattle.sections.specs.Answers.{assign_is};

use format::records::Assign;
use grammar::{Cursor, Read};

#[tactic(auto, using(grammar::proofs::Read::reads), unfolding(format::specs::File::assigns, format::specs::File::list))]
pub fn assigns(s: &[u8], c: Cursor, t: &mut [u64]) -> Read<usize>
    ensures { Left (definition.assigns (length t.old / 6) s.now c) assign_row 6 0 t.old t.new result }
{
    let (n, c) = varint::uvarint(s, c)?;
    let read = |c: Cursor| -> Read<Assign>
        ensures { definition.assign s.entry.now c ≡ assign_is s.entry.now result }
    { assign(s, c) };
    tables::records(4, n, c, t, 0, read)
}

#[tactic(auto, using(grammar::proofs::Read::reads), unfolding(format::specs::File::assign))]
fn assign(s: &[u8], c: Cursor) -> Read<Assign>
    ensures { definition.assign s.now c ≡ assign_is s.now result }
{
    let (op_assign, c) = fields::string(s, c)?;
    let (op_assign_name, c) = fields::name_index(s, c)?;
    let (op, c) = fields::string(s, c)?;
    let (op_name, c) = fields::name_index(s, c)?;
    let assign = Assign {
        op_assign,
        op_assign_name,
        op,
        op_name,
    };
    Ok((assign, c))
}
