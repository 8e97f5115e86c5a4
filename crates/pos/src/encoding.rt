// How sites are encoded: a first pass finds the first offence or measures them, and a second one writes.
ghost use Rattle.std.specs.Prelude.{◌≡◌, ◌+◌, ◌-◌, ◌<◌, ◌≤◌, ℕ, List, length, get_or};
ghost use Rattle.std.proofs.lemmas.List.Edits.{sets};
ghost use Rattle.grammar.specs.Number.{shortest};
ghost use Rattle.position_table.specs.declared.Site as listed;
ghost use Rattle.position_table.specs.Encode.{sites_of, kept, bytes_of, encoded, encoded_bytes};
ghost use Rattle.pos.specs.Passes.{entry_of, measured_of};

use position_table::Site;
use refusal::Refusal;

// Sites, whatever holds them.
pub trait Sites {
    ghost list: { Self → List listed.Site };

    fn count(&self) -> usize
        ensures { result ≡ length (list self.now) };

    fn site(&self, k: usize) -> Site
        requires { k < length (list self.now) }
        ensures { result ≡ get_or (list self.now) k result };
}

impl<'a> Sites for &'a [Site] {
    ghost list = { λ sites. sites.now };

    fn count(&self) -> usize {
        self.len()
    }

    fn site(&self, k: usize) -> Site {
        self[k]
    }
}

// Sites that three slices hold: as many as the shortest has places.
#[derive(Clone, Copy)]
pub struct Columns<'a> {
    pub addresses: &'a [u32],
    pub lines: &'a [u32],
    pub columns: &'a [u32],
}

impl<'a> Sites for Columns<'a> {
    ghost list = { λ held. sites_of held.addresses.now held.lines.now held.columns.now };

    fn count(&self) -> usize {
        self.addresses
            .len()
            .min(self.lines.len())
            .min(self.columns.len())
    }

    fn site(&self, k: usize) -> Site {
        Site {
            address: self.addresses[k],
            line: self.lines[k],
            column: self.columns[k],
        }
    }
}

// How many sites are kept, and how many bytes their table takes.
#[derive(Clone, Copy)]
pub struct Measured {
    pub kept: usize,
    pub size: usize,
}

// How many bytes a number takes.
fn width(value: u32) -> usize
    ensures { result ≡ length (shortest value) }
{
    varint::size(value as u64)
}

// How many bytes a site takes behind the address before it.
fn entry_size(previous: u32, site: Site) -> usize
    ensures { result ≡ length (entry_of previous site) }
{
    let step = site.address.saturating_sub(previous);
    if step | site.line | site.column < 128 {
        return 3;
    }
    if step | site.column < 128 {
        return 2 + width(site.line);
    }
    width(step) + width(site.line) + width(site.column)
}

// The first pass: those of line 0 are dropped, and the others must ascend. Neither pass is inlined: with both in one function there are
// not registers enough for a loop.
#[inline(never)]
fn measure<S: Sites>(sites: &S) -> Result<Measured, Refusal>
    requires { length (S.list sites.now) ≤ 262144 }
    ensures { result ≡ measured_of (S.list sites.now) }
{
    let mut kept: usize = 0;
    let mut size: usize = 0;
    let mut previous: u32 = 0;
    for k in 0..sites.count() {
        let site = sites.site(k);
        if site.line == 0 {
            continue;
        }
        let address = site.address;
        if address <= previous && kept != 0 {
            return Err(Refusal::NotAscending {
                address,
                earlier: previous,
            });
        }
        kept += 1;
        size += entry_size(previous, site);
        previous = address;
    }
    Ok(Measured {
        kept,
        size: varint::size(kept as u64) + size,
    })
}

// A number of a single byte is written, for those that have tested the room. Not `put`, which would test again what is known here.
fn put_byte(out: &mut [u8], at: usize, value: u32) -> usize
    requires value_bound { value < 128 }
    requires value_in_bounds { at + length (shortest value) ≤ length out.old }
    ensures value { result ≡ at + length (shortest value) }
    ensures out_after { out.new ≡ sets out.old at (shortest value) }
{
    out[at] = value as u8;
    at + 1
}

// A number is written, for those that have tested the room; most take up to three bytes.
fn put(out: &mut [u8], at: usize, value: u32) -> usize
    requires { at + length (shortest value) ≤ length out.old }
    ensures value { result ≡ at + length (shortest value) }
    ensures out_after { out.new ≡ sets out.old at (shortest value) }
{
    if value < 0x80 {
        out[at] = value as u8;
        return at + 1;
    }
    if value < 0x4000 {
        out[at] = (value % 128) as u8 + 128;
        out[at + 1] = (value / 128) as u8;
        return at + 2;
    }
    if value < 0x20_0000 {
        out[at] = (value % 128) as u8 + 128;
        out[at + 1] = (value / 128 % 128) as u8 + 128;
        out[at + 2] = (value / 128 / 128) as u8;
        return at + 3;
    }
    varint::put_at(out, at, value as u64)
}

// A site is written behind the address before it, for those that have tested the room; the place behind it is handed back.
fn put_entry(out: &mut [u8], at: usize, previous: u32, site: Site) -> usize
    requires { at + length (entry_of previous site) ≤ length out.old }
    ensures value { result ≡ at + length (entry_of previous site) }
    ensures out_after { out.new ≡ sets out.old at (entry_of previous site) }
{
    let step = site.address.saturating_sub(previous);
    if step | site.line | site.column < 128 {
        out[at] = step as u8;
        out[at + 1] = site.line as u8;
        out[at + 2] = site.column as u8;
        return at + 3;
    }
    if step | site.column < 128 {
        let line = put_byte(out, at, step);
        let column = put(out, line, site.line);
        return put_byte(out, column, site.column);
    }
    let line = put(out, at, step);
    let column = put(out, line, site.line);
    put(out, column, site.column)
}

// The second pass, for those that have tested the room: the count, and then the sites.
#[inline(never)]
fn write<S: Sites>(sites: &S, count: usize, out: &mut [u8])
    requires counted { count ≡ length (kept (S.list sites.now)) }
    requires room { length (bytes_of (kept (S.list sites.now))) ≤ length out.old }
    ensures { out.new ≡ sets out.old 0 (bytes_of (kept (S.list sites.now))) }
{
    let mut at = varint::put_at(out, 0, count as u64);
    let mut previous: u32 = 0;
    for k in 0..sites.count() {
        let site = sites.site(k);
        if site.line == 0 {
            continue;
        }
        at = put_entry(out, at, previous, site);
        previous = site.address;
    }
}

// Both passes: nothing is written before all is judged.
pub fn encode<S: Sites>(sites: &S, out: &mut [u8]) -> Result<usize, Refusal>
    ensures value { result ≡ encoded (S.list sites.now) (length out.old) }
    ensures out_after { out.new ≡ encoded_bytes (S.list sites.now) out.old }
{
    let n = sites.count();
    if 262144 < n {
        return Err(Refusal::TooLong { length: n });
    }
    let m = measure(sites)?;
    let room = out.len();
    let needed = m.size;
    if room < needed {
        return Err(Refusal::NoRoom { needed });
    }
    write(sites, m.kept, out);
    Ok(needed)
}
