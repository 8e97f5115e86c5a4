// How an entry is read: three numbers, and the address that the step reaches.
ghost use Rattle.std.specs.Prelude.{◌≡◌};
ghost use Rattle.grammar.specs.Read.{answer};
ghost use Rattle.position_table.specs.Table.{field};
ghost use Rattle.pos.specs.Steps.{in_table_of, placed, entry_at};

use crate::skim;
use grammar::{Cursor, Read};
use position_table::Site;
use refusal::{PositionsFault, Refusal};

// A refused number, as a table says it.
fn in_table(r: Refusal) -> Refusal
    ensures { result ≡ in_table_of r }
{
    match r {
        Refusal::Truncated => Refusal::Positions(PositionsFault::Truncated),
        _ => Refusal::Positions(PositionsFault::Overflow),
    }
}

// A number of the table.
pub fn field(table: &[u8], c: Cursor) -> Read<u32>
    ensures { field table.now c ≡ answer result }
{
    if let Some(read) = skim::number(table, c) {
        return Ok(read);
    }
    match varint::index(table, c) {
        Ok(read) => Ok(read),
        Err(r) => Err(in_table(r)),
    }
}

// The line and the column of the entry that stands at an address.
#[tactic(auto, using(grammar::proofs::Read::reads), unfolding(crate::specs::Steps::placed))]
fn placed(table: &[u8], c: Cursor, address: u32) -> Read<Site>
    ensures { placed address table.now c ≡ answer result }
{
    let (line, c) = field(table, c)?;
    let (column, c) = field(table, c)?;
    Ok((
        Site {
            address,
            line,
            column,
        },
        c,
    ))
}

// An entry behind an address: a step below the least is out of order, a sum above 32 bits is overflow.
#[tactic(auto, using(grammar::proofs::Read::reads), unfolding(crate::specs::Steps::entry_at))]
pub fn entry(table: &[u8], c: Cursor, least: u32, address: u32) -> Read<Site>
    ensures { entry_at least address table.now c ≡ answer result }
{
    let (step, c) = field(table, c)?;
    if step < least {
        return Err(Refusal::Positions(PositionsFault::OutOfOrder { earlier: address }));
    }
    if 0xffff_ffff - address < step {
        return Err(Refusal::Positions(PositionsFault::Overflow));
    }
    placed(table, c, address + step)
}
