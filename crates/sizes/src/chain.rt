// Chains: where they start, how many operands and steps they have, what they do at the end; and their steps, by themselves.
ghost use Rattle.std.specs.Prelude.{◌≡◌, ◌≤◌, length};
ghost use Rattle.rows.specs.Back.{chain_of, step_of, index_of, property_of, method_of};
ghost use Rattle.written.specs.Put as definition;
ghost use Rattle.emit.specs.Shares as shares;
ghost use Rattle.emit.specs.Ways.{root_in, put_step_in, chains_in};
ghost use Rattle.sizes.specs.Counts.{Counts};
ghost use Rattle.sizes.specs.Own.{own_chain};

use crate::base::{choose, number, plus};
use crate::record::{Counted, rows};
use crate::words::{index, position, small};
use emit::chain::{Chain, Step};
use format::tags::{RootTag, StepTag, TailTag};

// The tag, the flags, an operand and two positions.
fn index_step(strip: bool, row: [u64; 11]) -> usize
    ensures value { result ≡ length (put_step_in strip (index_of row)) }
    ensures upper_bound { result ≤ 100 }
{
    2 + small(row[2]) + position(strip, row[7], row[8]) + position(strip, row[9], row[10])
}

// The tag, the flags, three names and a position.
fn property(strip: bool, row: [u64; 11]) -> usize
    ensures value { result ≡ length (put_step_in strip (property_of row)) }
    ensures upper_bound { result ≤ 100 }
{
    2 + index(row[3]) + index(row[4]) + index(row[5]) + position(strip, row[7], row[8])
}

// The tag, the flags, a name, the argument count, an operand and a position.
fn method(strip: bool, row: [u64; 11]) -> usize
    ensures value { result ≡ length (put_step_in strip (method_of row)) }
    ensures upper_bound { result ≤ 100 }
{
    2 + index(row[3]) + 1 + small(row[2]) + position(strip, row[7], row[8])
}

fn step(strip: bool, row: [u64; 11]) -> usize
    ensures value { result ≡ length (put_step_in strip (step_of row)) }
    ensures upper_bound { result ≤ 300 }
{
    let tag = row[0];
    let other = choose(
        tag == StepTag::PROPERTY as u64,
        property(strip, row),
        method(strip, row),
    );
    choose(tag == StepTag::INDEX as u64, index_step(strip, row), other)
}

impl Counted<11> for Step {
    ghost bytes = { λ k row. put_step_in k.strip (step_of row) };

    fn count(&self, at: usize, row: [u64; 11]) -> usize
        requires { at ≤ 1048577 }
        ensures { Counts (put_step_in self.now.strip (step_of row)) at result }
    {
        plus(at, step(self.strip, row))
    }
}

fn root(strip: bool, row: [u64; 9]) -> usize
    ensures value { result ≡ length (definition.put_root (root_in strip (chain_of row).root)) }
    ensures upper_bound { result ≤ 100 }
{
    let tag = row[0];
    let placed = 1 + position(strip, row[3], row[4]);
    let named = placed + index(row[2]);
    let local = 1 + small(row[1]) + index(row[2]);
    let by_name = choose(tag == RootTag::NAMED as u64, named, placed);
    let other = choose(tag == RootTag::TEMPORARY as u64, 1, by_name);
    choose(tag == RootTag::LOCAL as u64, local, other)
}

fn tail(row: [u64; 9]) -> usize
    ensures value { result ≡ length (definition.put_tail (chain_of row).tail) }
    ensures upper_bound { result ≤ 100 }
{
    let tag = row[7];
    let other = choose(tag == TailTag::ASSIGN as u64, 1, 1 + index(row[8]));
    choose(tag == TailTag::READ as u64, 1, other)
}

// Without its steps.
impl Counted<9> for Chain {
    ghost bytes = { λ c row. own_chain c.strip (chain_of row) };

    fn count(&self, at: usize, row: [u64; 9]) -> usize
        requires { at ≤ 1048577 }
        ensures { Counts (own_chain self.now.strip (chain_of row)) at result }
    {
        plus(
            at,
            root(self.strip, row) + small(row[5]) + number(row[6]) + tail(row),
        )
    }
}

// The section, in the way asked. That the chains own all the steps, and no more, was tested before.
pub fn chains(at: usize, strip: bool, t: &[u64], used: usize, steps: &[u64], owned: usize) -> usize
    requires at_bound { at ≤ 1048577 }
    requires shares_fit { shares.SharesFit 6 9 used t.now 11 steps.now }
    requires owned_value { owned ≡ shares.owned 6 9 used t.now }
    ensures { Counts (definition.put_list definition.put_chain (chains_in strip (shares.chains_of t.now used steps.now))) at result }
{
    let behind = rows(plus(at, number(used as u64)), &Chain { strip }, t, used);
    rows(behind, &Step { strip }, steps, owned)
}
