// Custom syntax: sites, and their inputs in a table of their own (section 8 of document 01; get_custom_syntax).
ghost use Rattle.std.specs.Prelude.{◌≡◌, ◌/◌, length};
ghost use Rattle.grammar.specs.Read.{answer};
ghost use Rattle.tables.specs.Table.{Left, LeftOne, LeftBoth, nested, count_items};
ghost use Rattle.format.specs.File as definition;
ghost use Rattle.format.specs.Rows.{site_row, input_row};
ghost use Rattle.callables.specs.Items.{literal_of};

use format::records::{Input, Site};
use grammar::{Cursor, Read};
use refusal::Refusal;

#[tactic(auto, using(grammar::proofs::Read::reads, tables::proofs::Both::both_refused), unfolding(format::specs::File::customs))]
pub fn customs(s: &[u8], c: Cursor, t: &mut [u64], inputs: &mut [u64]) -> Read<(usize, usize)>
    ensures { LeftBoth (definition.customs (length t.old / 3) (length inputs.old / 5) s.now c) site_row input_row t.old t.new inputs.old inputs.new result }
{
    let (n, c) = varint::uvarint(s, c)?;
    site_rows(s, c, n, t, inputs)
}

// Not the loop of tables, which fills one table: what a site reads fills its inputs' too.
fn site_rows(s: &[u8], c: Cursor, n: u64, t: &mut [u64], inputs: &mut [u64]) -> Read<(usize, usize)>
    ensures { LeftBoth (nested count_items 10 (length t.old / 3) (definition.site (length inputs.old / 5)) n definition.none s.now c) site_row input_row t.old t.new inputs.old inputs.new result }
{
    let places = t.len() / 3;
    let mut at = c;
    let mut own: usize = 0;
    let mut used: usize = 0;
    for _ in 0..n {
        if places <= own {
            return Err(Refusal::Full { table: 10 });
        }
        let ((site, behind), next) = site(s, at, used, inputs)?;
        let row: [u64; 3] = site.into();
        tables::store(t, own * 3, &row);
        used = behind;
        at = next;
        own += 1;
    }
    Ok(((own, used), at))
}

// A site, and the places used of the inputs' table behind it.
#[tactic(auto, using(grammar::proofs::Read::reads, tables::proofs::Both::one_refused), unfolding(format::specs::File::site))]
fn site(s: &[u8], c: Cursor, used: usize, inputs: &mut [u64]) -> Read<(Site, usize)>
    ensures { LeftOne (definition.site (length inputs.old / 5) used s.now c) input_row 5 used inputs.old inputs.new result }
{
    let (key, c) = varint::index(s, c)?;
    let (state, c) = varint::index(s, c)?;
    let (behind, c) = input_list(s, c, used, inputs)?;
    let site = Site {
        key,
        state,
        inputs: (behind - used) as u64,
    };
    Ok(((site, behind), c))
}

#[tactic(auto, using(grammar::proofs::Read::reads), unfolding(format::specs::File::list))]
fn input_list(s: &[u8], c: Cursor, from: usize, t: &mut [u64]) -> Read<usize>
    ensures { Left (definition.list 11 (length t.old / 5) definition.input from s.now c) input_row 5 from t.old t.new result }
{
    let (n, c) = varint::uvarint(s, c)?;
    let read = |c: Cursor| -> Read<Input>
        ensures { definition.input s.entry.now c ≡ answer result }
    { input(s, c) };
    tables::records(11, n, c, t, from, read)
}

#[tactic(auto, using(grammar::proofs::Read::reads), unfolding(format::specs::File::input))]
fn input(s: &[u8], c: Cursor) -> Read<Input>
    ensures { definition.input s.now c ≡ answer result }
{
    let (chunk, c) = fields::chunk(s, c)?;
    let (index, c) = varint::index(s, c)?;
    Ok((
        Input {
            chunk,
            literal: literal(index),
        },
        c,
    ))
}

// All ones means none.
fn literal(index: u32) -> Option<u32>
    ensures { result ≡ literal_of index }
{
    if index == 0xffff_ffff {
        None
    } else {
        Some(index)
    }
}
