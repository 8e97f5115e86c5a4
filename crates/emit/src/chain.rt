// Chains: where they start, their steps, and what they do at the end, from the words of their rows. Where positions are stripped, none
// is written.
ghost use Rattle.std.specs.Prelude.{◌≡◌, ◌+◌, ◌*◌, ◌≤◌, [], ◌∷◌, length, map};
ghost use Rattle.rows.specs.Back.{word, octet, chain_of, step_of, index_of, property_of, method_of};
ghost use Rattle.written.specs.Put as definition;
ghost use Rattle.emit.specs.Shares.{SharesFit, chain_from, chains_of};
ghost use Rattle.emit.specs.Puts.{Puts};
ghost use Rattle.emit.specs.Ways.{root_in, put_step_in, put_chain_in, chains_in};

use crate::base::byte;
use crate::record::{Owner, Record, list, owners};
use crate::words::{index, octet, position, small};
use format::tags::{RootTag, StepTag, TailTag};

pub fn root(out: &mut [u8], at: usize, strip: bool, row: [u64; 9]) -> usize
    ensures { Puts (definition.put_root (root_in strip (chain_of row).root)) out.old at out.new result }
{
    let tag = row[0];
    if tag == RootTag::LOCAL as u64 {
        let behind = byte(out, at, RootTag::LOCAL);
        let slot = small(out, behind, row[1]);
        return index(out, slot, row[2]);
    }
    if tag == RootTag::TEMPORARY as u64 {
        return byte(out, at, RootTag::TEMPORARY);
    }
    if tag == RootTag::NAMED as u64 {
        let behind = byte(out, at, RootTag::NAMED);
        let named = index(out, behind, row[2]);
        return position(out, named, strip, row[3], row[4]);
    }
    let behind = byte(out, at, RootTag::THIS);
    position(out, behind, strip, row[3], row[4])
}

// The tag and the flags.
fn opening(out: &mut [u8], at: usize, tag: u8, flags: u64) -> usize
    ensures { Puts (tag ∷ octet flags ∷ []) out.old at out.new result }
{
    let behind = byte(out, at, tag);
    octet(out, behind, flags)
}

fn index_step(out: &mut [u8], at: usize, strip: bool, row: [u64; 11]) -> usize
    ensures { Puts (put_step_in strip (index_of row)) out.old at out.new result }
{
    let opened = opening(out, at, StepTag::INDEX, row[1]);
    let operand = small(out, opened, row[2]);
    let place = position(out, operand, strip, row[7], row[8]);
    position(out, place, strip, row[9], row[10])
}

fn property(out: &mut [u8], at: usize, strip: bool, row: [u64; 11]) -> usize
    ensures { Puts (put_step_in strip (property_of row)) out.old at out.new result }
{
    let opened = opening(out, at, StepTag::PROPERTY, row[1]);
    let named = index(out, opened, row[3]);
    let got = index(out, named, row[4]);
    let set = index(out, got, row[5]);
    position(out, set, strip, row[7], row[8])
}

fn method(out: &mut [u8], at: usize, strip: bool, row: [u64; 11]) -> usize
    ensures { Puts (put_step_in strip (method_of row)) out.old at out.new result }
{
    let opened = opening(out, at, StepTag::METHOD, row[1]);
    let named = index(out, opened, row[3]);
    let counted = octet(out, named, row[6]);
    let operand = small(out, counted, row[2]);
    position(out, operand, strip, row[7], row[8])
}

// A step, with its positions or without.
#[derive(Clone, Copy)]
pub struct Step {
    pub strip: bool,
}

impl Record<11> for Step {
    ghost bytes = { λ k row. put_step_in k.strip (step_of row) };

    fn put(&self, out: &mut [u8], at: usize, row: [u64; 11]) -> usize
        ensures { Puts (put_step_in self.now.strip (step_of row)) out.old at out.new result }
    {
        let tag = row[0];
        if tag == StepTag::INDEX as u64 {
            index_step(out, at, self.strip, row)
        } else if tag == StepTag::PROPERTY as u64 {
            property(out, at, self.strip, row)
        } else {
            method(out, at, self.strip, row)
        }
    }
}

pub fn tail(out: &mut [u8], at: usize, row: [u64; 9]) -> usize
    ensures { Puts (definition.put_tail (chain_of row).tail) out.old at out.new result }
{
    let tag = row[7];
    if tag == TailTag::READ as u64 {
        return byte(out, at, TailTag::READ);
    }
    if tag == TailTag::ASSIGN as u64 {
        return byte(out, at, TailTag::ASSIGN);
    }
    let behind = byte(out, at, TailTag::ASSIGN_OP);
    index(out, behind, row[8])
}

// A chain, with the positions of it and of its steps or without.
#[derive(Clone, Copy)]
pub struct Chain {
    pub strip: bool,
}

impl Owner<9, 11> for Chain {
    ghost counted = { 6 };

    ghost bytes = { λ c row steps. put_chain_in c.strip (record { whole = chain_of row; items = map step_of steps }) };

    fn owned(row: [u64; 9]) -> usize
        ensures { result ≡ word row 6 }
    {
        row[6] as usize
    }

    fn put(&self, out: &mut [u8], at: usize, row: [u64; 9], steps: &[u64], from: usize) -> usize
        requires { (from + word row 6) * 11 ≤ length steps.now }
        ensures { Puts (put_chain_in self.now.strip (chain_from (chain_of row) steps.now from)) out.old at out.new result }
    {
        let strip = self.strip;
        let started = root(out, at, strip, row);
        let operands = small(out, started, row[5]);
        let behind = list(out, operands, &Step { strip }, steps, from, row[6] as usize);
        tail(out, behind, row)
    }
}

// The section, in the way asked. That the chains own all the steps, and no more, was tested before.
pub fn chains(
    out: &mut [u8],
    at: usize,
    strip: bool,
    t: &[u64],
    used: usize,
    steps: &[u64],
) -> usize
    requires { SharesFit 6 9 used t.now 11 steps.now }
    ensures { Puts (definition.put_list definition.put_chain (chains_in strip (chains_of t.now used steps.now))) out.old at out.new result }
{
    owners(out, at, &Chain { strip }, t, used, steps)
}
