#![tactic(auto)]
// Position tables: from an instruction's address back to a line and a column (pos/mod.rs).
ghost use Rattle.std.specs.Prelude.{◌≡◌, ◌-◌, ◌≤◌, length};
ghost use Rattle.position_table.specs.Encode.{sites_of, encoded, encoded_bytes};
ghost use Rattle.position_table.specs.Table.{counted, checked, resolved, site_for};
ghost use Rattle.pos.specs.Steps.{ended_at};
ghost use Rattle.pos.specs.Skim.{Checking, sought};

use encoding::Columns;
use grammar::Cursor;
use position_table::{Position, Site};
use refusal::{PositionsFault, Refusal};
use skim::Walk;

mod encoding;
mod reading;
mod skim;

// The site recorded for an address, if the table has one. A malformed table also reads as none: resolving happens while
// an error is reported, and must not replace it.
pub fn resolve(table: &[u8], address: u32) -> Option<Position>
    ensures { result ≡ resolved table.now address }
{
    match skim::number(table, Cursor::new()) {
        Some((count, c)) => resolve_from(table, address, c, count),
        None => resolve_long(table, address),
    }
}

// The same, where the count is not short.
fn resolve_long(table: &[u8], asked: u32) -> Option<Position>
    ensures { result ≡ resolved table.now asked }
{
    let (count, c) = reading::field(table, Cursor::new()).ok()?;
    seek(table, asked, skim::begun(c, count, asked as u64))
}

// The walk stops at the first entry whose address equals or passes the one asked. The very first is tried by itself, so
// that a call for it, or in a table of one, stays short.
fn resolve_from(table: &[u8], asked: u32, c: Cursor, left: u32) -> Option<Position>
    ensures { result ≡ sought table.now asked c left 0 }
{
    if 0 < left {
        if let Some(e) = skim::site(table, c) {
            if asked <= e.step {
                return site_for(
                    asked,
                    Site {
                        address: e.step,
                        line: e.line,
                        column: e.column,
                    },
                );
            }
            if left == 1 {
                return None;
            }
        }
    }
    // Made of its fields: handed on whole, the answer would go through memory here, and that of the first entry too.
    let p = seek(table, asked, skim::run(table, c.at, left, 0, asked as u64))?;
    Some(Position {
        line: p.line,
        column: p.column,
    })
}

// The entry at hand is the one asked, or the walk goes on.
fn seek(table: &[u8], asked: u32, from: Walk) -> Option<Position>
    requires { from.room ≤ asked }
    ensures { result ≡ sought table.now asked from.c from.left (asked - from.room) }
{
    if 0 < from.left {
        if let Some(e) = skim::site(table, from.c) {
            if e.step as u64 == from.room {
                return site_for(
                    asked,
                    Site {
                        address: asked,
                        line: e.line,
                        column: e.column,
                    },
                );
            }
        }
    }
    seek_on(table, asked, from)
}

// The same, an entry of any width at a time, and running again behind each: so a turn passes more than one.
fn seek_on(table: &[u8], asked: u32, from: Walk) -> Option<Position>
    requires { from.room ≤ asked }
    ensures { result ≡ sought table.now asked from.c from.left (asked - from.room) }
{
    let mut w = from;
    while 0 < w.left {
        let (site, next) = reading::entry(table, w.c, 0, asked - w.room as u32).ok()?;
        if asked <= site.address {
            return site_for(asked, site);
        }
        w = skim::run(table, next.at, w.left - 1, 0, (asked - site.address) as u64);
    }
    None
}

fn site_for(asked: u32, site: Site) -> Option<Position>
    ensures { result ≡ site_for asked site }
{
    if site.address != asked {
        return None;
    }
    if site.line == 0 {
        return None;
    }
    Some(Position {
        line: site.line,
        column: site.column,
    })
}

// How many entries the table says it holds, without reading them.
pub fn count(table: &[u8]) -> Result<u32, Refusal>
    ensures { result ≡ counted table.now }
{
    let (count, _) = reading::field(table, Cursor::new())?;
    Ok(count)
}

// Whether a table is well formed, so that resolving need not look: the first thing wrong. Most tables are sound and short,
// and are seen to be: this much is inlined where it is called.
pub fn check(table: &[u8]) -> Result<(), Refusal>
    ensures { result ≡ checked table.now }
{
    if skim::alone(table) {
        return Ok(());
    }
    if skim::passes(table) {
        return Ok(());
    }
    check_long(table)
}

// The same at the cost of a call, for those who check a long table, and for what `check` has not seen to be sound. Called
// from one place, it would be inlined there, and `check` nowhere.
pub fn check_long(table: &[u8]) -> Result<(), Refusal>
    ensures { result ≡ checked table.now }
{
    let (count, c) = reading::field(table, Cursor::new())?;
    entries(table, skim::run(table, c.at, count, 0, 0x1_0000_0000))
}

// The entries that are left, and then the end. Running again behind each, a turn passes more than one.
fn entries(table: &[u8], from: Walk) -> Result<(), Refusal>
    requires { Checking table.now from }
    ensures { result ≡ checked table.now }
{
    let mut w = from;
    while 0 < w.left {
        let address = (0x1_0000_0000 - w.room) as u32;
        let (site, next) = reading::entry(table, w.c, w.least, address)?;
        w = skim::run(
            table,
            next.at,
            w.left - 1,
            1,
            0x1_0000_0000 - site.address as u64,
        );
    }
    ended(table.len(), w.c)
}

// Bytes behind the last entry: this is not the table that it claims to be.
fn ended(size: usize, c: Cursor) -> Result<(), Refusal>
    ensures { result ≡ ended_at size c.at }
{
    let at = c.at;
    if at == size {
        Ok(())
    } else {
        Err(Refusal::Positions(PositionsFault::Trailing {
            count: size.saturating_sub(at),
        }))
    }
}

// A table of the sites that three slices hold, in ascending order of address. Those of line 0 carry no information and
// are dropped. Where it is refused, `out` is as it was.
pub fn encode(
    addresses: &[u32],
    lines: &[u32],
    columns: &[u32],
    out: &mut [u8],
) -> Result<usize, Refusal>
    ensures value { result ≡ encoded (sites_of addresses.now lines.now columns.now) (length out.old) }
    ensures out_after { out.new ≡ encoded_bytes (sites_of addresses.now lines.now columns.now) out.old }
{
    encoding::encode(
        &Columns {
            addresses,
            lines,
            columns,
        },
        out,
    )
}

// The same of the sites that a slice holds; `encode` says it over three slices of numbers, as C can lend them.
pub fn encode_sites(sites: &[Site], out: &mut [u8]) -> Result<usize, Refusal>
    ensures { (result ≡ encoded sites.now (length out.old)) × (out.new ≡ encoded_bytes sites.now out.old) }
{
    encoding::encode(&sites, out)
}
