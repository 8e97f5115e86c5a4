// Position tables and the debug id, for C. A refusal's two values are left where two values are lent.
ghost use Rattle.std.specs.Prelude.{[], ◌∷◌, ◌≡◌, length};
ghost use Rattle.debug_id.specs.DebugId.{debug_id};
ghost use Rattle.refusal.specs.Numbers.{row_is};
ghost use Rattle.position_table.specs.Encode.{sites_of, encoded, encoded_bytes};
ghost use Rattle.position_table.specs.Table.{checked, counted, resolved};
ghost use Rattle.grain.specs.Positions.{values_of, checked_row, counted_answer, count_or, encoded_row, found, site_values, halves_of};

use crate::numbers;
use position_table::Position;
use refusal::{Refusal, Row};

pub fn put_values(values: &mut [u64; 2], row: Row)
    ensures { values.new ≡ values_of row }
{
    *values = [row.first, row.second];
}

// No refusal, and a value that was got.
pub fn got_row(value: u64) -> Row
    ensures { result ≡ row_is 0 value 0 }
{
    Row {
        number: 0,
        first: value,
        second: 0,
    }
}

fn checked_row(c: Result<(), Refusal>) -> Row
    ensures { result ≡ checked_row c }
{
    match c {
        Ok(()) => got_row(0),
        Err(r) => Row::from(r),
    }
}

// Of bytes that were written, or are not.
pub fn encoded_row(c: Result<usize, Refusal>) -> Row
    ensures { result ≡ encoded_row c }
{
    match c {
        Ok(size) => got_row(size as u64),
        Err(refused) => Row::from(refused),
    }
}

pub fn grain_pos_check(table: &[u8], values: &mut [u64; 2]) -> u64
    ensures value { result ≡ (checked_row (checked table.now)).number }
    ensures values_after { values.new ≡ values_of (checked_row (checked table.now)) }
{
    let row = checked_row(pos::check(table));
    put_values(values, row);
    row.number
}

// The entries that the table says it has; where that is refused, 0.
pub fn grain_pos_count(table: &[u8], count: &mut u64) -> u64
    ensures value { result ≡ counted_answer (counted table.now) }
    ensures count_after { count.new ≡ count_or (counted table.now) }
{
    match pos::count(table) {
        Ok(n) => {
            *count = n as u64;
            0
        }
        Err(r) => {
            *count = 0;
            numbers::number_of(r)
        }
    }
}

// 1 and line and column where there is a site; 0 and zeros where there is none.
pub fn grain_pos_resolve(table: &[u8], address: u32, site: &mut [u64; 2]) -> u64
    ensures value { result ≡ found (resolved table.now address) }
    ensures site_after { site.new ≡ site_values (resolved table.now address) }
{
    match pos::resolve(table, address) {
        Some(Position { line, column }) => {
            *site = [line as u64, column as u64];
            1
        }
        None => {
            *site = [0, 0];
            0
        }
    }
}

// The bytes written are the first value.
pub fn grain_pos_encode(
    addresses: &[u32],
    lines: &[u32],
    columns: &[u32],
    out: &mut [u8],
    values: &mut [u64; 2],
) -> u64
    ensures value { result ≡ (encoded_row (encoded (sites_of addresses.now lines.now columns.now) (length out.old))).number }
    ensures values_after { values.new ≡ values_of (encoded_row (encoded (sites_of addresses.now lines.now columns.now) (length out.old))) }
    ensures out_after { out.new ≡ encoded_bytes (sites_of addresses.now lines.now columns.now) out.old }
{
    let row = encoded_row(pos::encode(addresses, lines, columns, out));
    put_values(values, row);
    row.number
}

// The low half, then the high half. Nothing is refused: the answer is 0.
pub fn grain_debug_id(table: &[u8], chains: &[u8], id: &mut [u64; 2]) -> u64
    ensures value { result ≡ 0 }
    ensures id_after { id.new ≡ halves_of (debug_id table.now chains.now) }
{
    let d = debug_id::debug_id(table, chains);
    *id = [d.low, d.high];
    0
}
