// Position tables and the debug id.
ghost use Rattle.std.specs.Prelude.{◌≡◌, length};
ghost use Rattle.debug_id.specs.DebugId.{debug_id};
ghost use Rattle.position_table.specs.Encode.{sites_of, encoded, encoded_bytes};
ghost use Rattle.position_table.specs.Table.{checked, counted, resolved};
ghost use Rattle.grain.specs.Positions.{values_of, checked_row, counted_answer, count_or, encoded_row, found, site_values, halves_of};

use grain::positions;

#[unsafe(no_mangle)]
pub extern "C" fn grain_pos_check(table: &[u8], values: &mut [u64; 2]) -> u64
    ensures value { result ≡ (checked_row (checked table.now)).number }
    ensures values_after { values.new ≡ values_of (checked_row (checked table.now)) }
{
    positions::grain_pos_check(table, values)
}

// The entries that the table says it has; where that is refused, 0.
#[unsafe(no_mangle)]
pub extern "C" fn grain_pos_count(table: &[u8], count: &mut u64) -> u64
    ensures value { result ≡ counted_answer (counted table.now) }
    ensures count_after { count.new ≡ count_or (counted table.now) }
{
    positions::grain_pos_count(table, count)
}

// 1 and line and column where there is a site; 0 and zeros where there is none.
#[unsafe(no_mangle)]
pub extern "C" fn grain_pos_resolve(table: &[u8], address: u32, site: &mut [u64; 2]) -> u64
    ensures value { result ≡ found (resolved table.now address) }
    ensures site_after { site.new ≡ site_values (resolved table.now address) }
{
    positions::grain_pos_resolve(table, address, site)
}

// The bytes written are the first value.
#[unsafe(no_mangle)]
pub extern "C" fn grain_pos_encode(
    addresses: &[u32],
    lines: &[u32],
    columns: &[u32],
    out: &mut [u8],
    values: &mut [u64; 2],
) -> u64
    ensures value { result ≡ (encoded_row (encoded (sites_of addresses.now lines.now columns.now) (length out.old))).number }
    ensures values_after { values.new ≡ values_of (encoded_row (encoded (sites_of addresses.now lines.now columns.now) (length out.old))) }
    ensures out_after { out.new ≡ encoded_bytes (sites_of addresses.now lines.now columns.now) out.old }
{
    positions::grain_pos_encode(addresses, lines, columns, out, values)
}

// The low half, then the high half. Nothing is refused: the answer is 0.
#[unsafe(no_mangle)]
pub extern "C" fn grain_debug_id(table: &[u8], chains: &[u8], id: &mut [u64; 2]) -> u64
    ensures value { result ≡ 0 }
    ensures id_after { id.new ≡ halves_of (debug_id table.now chains.now) }
{
    positions::grain_debug_id(table, chains, id)
}
