#![tactic(auto)]
// Chains and their steps (section 6 of document 01; get_chain of format/read.rs).
ghost use Rattle.std.specs.Prelude.{◌≡◌, ◌/◌, length};
ghost use Rattle.tables.specs.Table.{Left, LeftOne, LeftBoth, nested, count_items};
ghost use Rattle.format.specs.File as definition;
ghost use Rattle.format.specs.Rows.{chain_row, step_row};
ghost use Rattle.grammar.specs.Read.{answer};

use format::records::{Chain, Step};
use grammar::{Cursor, Read};
use refusal::Refusal;

pub mod roots;
pub mod steps;
pub mod tails;

// The section: a count, then the chains.
#[tactic(auto, using(grammar::proofs::Read::reads, tables::proofs::Both::both_refused), unfolding(format::specs::File::chains))]
pub fn chains(
    s: &[u8],
    c: Cursor,
    mask: u8,
    t: &mut [u64],
    steps: &mut [u64],
) -> Read<(usize, usize)>
    ensures { LeftBoth (definition.chains (length t.old / 9) (length steps.old / 11) mask s.now c) chain_row step_row t.old t.new steps.old steps.new result }
{
    let (n, c) = varint::uvarint(s, c)?;
    chain_rows(s, c, n, mask, t, steps)
}

// Not the loop of tables, which fills one table: what a chain reads fills its steps' too.
fn chain_rows(
    s: &[u8],
    c: Cursor,
    n: u64,
    mask: u8,
    t: &mut [u64],
    steps: &mut [u64],
) -> Read<(usize, usize)>
    ensures { LeftBoth (nested count_items 5 (length t.old / 9) (definition.chain (length steps.old / 11) mask) n definition.none s.now c) chain_row step_row t.old t.new steps.old steps.new result }
{
    let places = t.len() / 9;
    let mut at = c;
    let mut own: usize = 0;
    let mut used: usize = 0;
    for _ in 0..n {
        if places <= own {
            return Err(Refusal::Full { table: 5 });
        }
        let ((chain, behind), next) = chain(s, at, mask, used, steps)?;
        let row: [u64; 9] = chain.into();
        tables::store(t, own * 9, &row);
        used = behind;
        at = next;
        own += 1;
    }
    Ok(((own, used), at))
}

// A chain is a root, an operand count, steps and a tail; and the places used of the steps' table behind it.
#[tactic(auto, using(grammar::proofs::Read::reads, tables::proofs::Both::one_refused), unfolding(format::specs::File::chain))]
fn chain(s: &[u8], c: Cursor, mask: u8, used: usize, t: &mut [u64]) -> Read<(Chain, usize)>
    ensures { LeftOne (definition.chain (length t.old / 11) mask used s.now c) step_row 11 used t.old t.new result }
{
    let (root, c) = roots::root(s, c)?;
    let (operands, c) = varint::small(s, c)?;
    let (behind, c) = step_list(s, c, mask, used, t)?;
    let (tail, c) = tails::tail(s, c)?;
    let steps = (behind - used) as u64;
    let chain = Chain {
        root,
        operands,
        steps,
        tail,
    };
    Ok(((chain, behind), c))
}

// A count, then the steps, behind the places used of their table.
#[tactic(auto, using(grammar::proofs::Read::reads), unfolding(format::specs::File::list))]
fn step_list(s: &[u8], c: Cursor, mask: u8, used: usize, t: &mut [u64]) -> Read<usize>
    ensures { Left (definition.list 6 (length t.old / 11) (definition.step mask) used s.now c) step_row 11 used t.old t.new result }
{
    let (n, c) = varint::uvarint(s, c)?;
    let read = |c: Cursor| -> Read<Step>
        ensures { definition.step mask s.entry.now c ≡ answer result }
    { steps::step(s, c, mask) };
    tables::records(6, n, c, t, used, read)
}
