// Functions, and their parameters in a table of their own (section 9 of document 01).
ghost use Rattle.std.specs.Prelude.{◌≡◌, ◌/◌, length};
ghost use Rattle.grammar.specs.Read.{answer};
ghost use Rattle.tables.specs.Table.{Left, LeftOne, LeftBoth, nested, count_items};
ghost use Rattle.format.specs.File as definition;
ghost use Rattle.format.specs.Rows.{function_row, parameter_row};

use format::records::{Access, Function, NameIndex};
use grammar::{Cursor, Read};
use refusal::Refusal;

#[tactic(auto, using(grammar::proofs::Read::reads, tables::proofs::Both::both_refused), unfolding(format::specs::File::functions))]
pub fn functions(s: &[u8], c: Cursor, t: &mut [u64], parameters: &mut [u64]) -> Read<(usize, usize)>
    ensures { LeftBoth (definition.functions (length t.old / 7) (length parameters.old) s.now c) function_row parameter_row t.old t.new parameters.old parameters.new result }
{
    let (n, c) = varint::uvarint(s, c)?;
    function_rows(s, c, n, t, parameters)
}

// Not the loop of tables, which fills one table: what a function reads fills its parameters' too.
fn function_rows(
    s: &[u8],
    c: Cursor,
    n: u64,
    t: &mut [u64],
    parameters: &mut [u64],
) -> Read<(usize, usize)>
    ensures { LeftBoth (nested count_items 12 (length t.old / 7) (definition.function (length parameters.old)) n definition.none s.now c) function_row parameter_row t.old t.new parameters.old parameters.new result }
{
    let places = t.len() / 7;
    let mut at = c;
    let mut own: usize = 0;
    let mut used: usize = 0;
    for _ in 0..n {
        if places <= own {
            return Err(Refusal::Full { table: 12 });
        }
        let ((function, behind), next) = function(s, at, used, parameters)?;
        let row: [u64; 7] = function.into();
        tables::store(t, own * 7, &row);
        used = behind;
        at = next;
        own += 1;
    }
    Ok(((own, used), at))
}

// A function, and the places used of the parameters' table behind it.
#[tactic(auto, using(grammar::proofs::Read::reads, tables::proofs::Both::one_refused), unfolding(format::specs::File::function))]
fn function(s: &[u8], c: Cursor, used: usize, parameters: &mut [u64]) -> Read<(Function, usize)>
    ensures { LeftOne (definition.function (length parameters.old) used s.now c) parameter_row 1 used parameters.old parameters.new result }
{
    let (name, c) = fields::name_index(s, c)?;
    let (access, c) = access(s, c)?;
    let (this_type, c) = this_type(s, c)?;
    let (behind, c) = parameter_list(s, c, used, parameters)?;
    let (chunk, c) = fields::chunk(s, c)?;
    let function = Function {
        name,
        access,
        this_type,
        parameters: (behind - used) as u64,
        chunk,
    };
    Ok(((function, behind), c))
}

#[tactic(auto, using(grammar::proofs::Read::reads), unfolding(format::specs::File::list))]
fn parameter_list(s: &[u8], c: Cursor, from: usize, t: &mut [u64]) -> Read<usize>
    ensures { Left (definition.list 13 (length t.old) definition.name_index from s.now c) parameter_row 1 from t.old t.new result }
{
    let (n, c) = varint::uvarint(s, c)?;
    let read = |c: Cursor| -> Read<NameIndex>
        ensures { definition.name_index s.entry.now c ≡ answer result }
    { fields::name_index(s, c) };
    tables::records(13, n, c, t, from, read)
}

// 0 or 1.
#[tactic(auto, using(grammar::proofs::Read::reads), unfolding(format::specs::File::access))]
fn access(s: &[u8], c: Cursor) -> Read<Access>
    ensures { definition.access s.now c ≡ answer result }
{
    let (value, c) = varint::uvarint(s, c)?;
    match value {
        0 => Ok((Access::Public, c)),
        1 => Ok((Access::Private, c)),
        _ => Err(Refusal::Truncated),
    }
}

// 0, or one higher than an index.
#[tactic(auto, using(grammar::proofs::Read::reads), unfolding(format::specs::File::this_type))]
fn this_type(s: &[u8], c: Cursor) -> Read<Option<u32>>
    ensures { definition.this_type s.now c ≡ answer result }
{
    let (value, c) = varint::uvarint(s, c)?;
    if value == 0 {
        return Ok((None, c));
    }
    if value <= 0x1_0000_0000 {
        return Ok((Some((value - 1) as u32), c));
    }
    Err(Refusal::Truncated)
}
