// Constants: each one's head, its items one level deeper, and behind them a function pointer's kind.
ghost use Rattle.std.specs.Prelude.{◌∷◌, ◌++◌};
ghost use Rattle.grammar.specs.Combinators.{low_bytes};
ghost use Rattle.grammar.specs.Number.{shortest, zigzag};
ghost use Rattle.format.specs.Artifact.{levels};
ghost use Rattle.rows.specs.Back.{index, signed, kind_of, compound_of, constant_of, keyed_of};
ghost use Rattle.rows.specs.Tree as tree;
ghost use Rattle.written.specs.Put as definition;
ghost use Rattle.model.specs.Lent.{clip};
ghost use Rattle.emit.specs.Puts.{Puts};
ghost use Rattle.emit.specs.Constants.{head_bytes, foot_bytes, key_bytes, ItemsStand, PutsItems, ConstantsFit, constants_of};

use crate::base::{byte, bytes, number};
use crate::owning;
use crate::owning::{has_keys, items_of};
use crate::words::{index, signed, text};
use format::tags::{ConstantTag, Limit, PointerTag};
use rows::row;

// The place behind some constants, and the row behind all that they own.
#[derive(Clone, Copy)]
pub struct Behind {
    pub place: usize,
    pub next: usize,
}

fn tagged(out: &mut [u8], at: usize, tag: u8, v: u64) -> usize
    ensures { Puts (tag ∷ shortest v) out.old at out.new result }
{
    let behind = byte(out, at, tag);
    number(out, behind, v)
}

fn texted(out: &mut [u8], at: usize, tag: u8, s: &[u8], start: u64, size: u64) -> usize
    ensures { Puts (tag ∷ definition.put_bytes (clip s.now (record { start = start; size = size }))) out.old at out.new result }
{
    let behind = byte(out, at, tag);
    text(out, behind, s, start, size)
}

fn ranged(out: &mut [u8], at: usize, tag: u8, from: u64, to: u64) -> usize
    ensures { Puts (tag ∷ (shortest (zigzag (signed from)) ++ shortest (zigzag (signed to)))) out.old at out.new result }
{
    let behind = byte(out, at, tag);
    let first = signed(out, behind, from);
    signed(out, first, to)
}

fn int(out: &mut [u8], at: usize, w: u64) -> usize
    ensures { Puts (3 ∷ shortest (zigzag (signed w))) out.old at out.new result }
{
    let behind = byte(out, at, ConstantTag::INT);
    signed(out, behind, w)
}

fn float(out: &mut [u8], at: usize, bits: u64) -> usize
    ensures { Puts (4 ∷ low_bytes 8 bits) out.old at out.new result }
{
    let behind = byte(out, at, ConstantTag::FLOAT);
    bytes(out, behind, &bits.to_le_bytes())
}

fn character(out: &mut [u8], at: usize, w: u64) -> usize
    ensures { Puts (5 ∷ shortest (index w)) out.old at out.new result }
{
    let behind = byte(out, at, ConstantTag::CHAR);
    index(out, behind, w)
}

fn pointer(out: &mut [u8], at: usize, s: &[u8], start: u64, size: u64, items: u64) -> usize
    ensures { Puts (0x0D ∷ (definition.put_bytes (clip s.now (record { start = start; size = size })) ++ shortest items)) out.old at out.new result }
{
    let named = texted(out, at, ConstantTag::FN_PTR, s, start, size);
    number(out, named, items)
}

// Arrays, maps, blobs, ranges and, by every other tag, function pointers.
fn compound(out: &mut [u8], at: usize, s: &[u8], row: [u64; 8]) -> usize
    ensures { Puts (head_bytes s.now (compound_of row)) out.old at out.new result }
{
    let tag = row[0];
    if tag == ConstantTag::ARRAY as u64 {
        return tagged(out, at, ConstantTag::ARRAY, row[5]);
    }
    if tag == ConstantTag::MAP as u64 {
        return tagged(out, at, ConstantTag::MAP, row[5]);
    }
    if tag == ConstantTag::BLOB as u64 {
        return texted(out, at, ConstantTag::BLOB, s, row[3], row[4]);
    }
    if tag == ConstantTag::RANGE as u64 {
        return ranged(out, at, ConstantTag::RANGE, row[1], row[2]);
    }
    if tag == ConstantTag::RANGE_INCLUSIVE as u64 {
        return ranged(out, at, ConstantTag::RANGE_INCLUSIVE, row[1], row[2]);
    }
    pointer(out, at, s, row[3], row[4], row[5])
}

// All before the items.
fn head(out: &mut [u8], at: usize, s: &[u8], row: [u64; 8]) -> usize
    ensures { Puts (head_bytes s.now (constant_of row)) out.old at out.new result }
{
    let tag = row[0];
    if tag == ConstantTag::UNIT as u64 {
        return byte(out, at, ConstantTag::UNIT);
    }
    if tag == ConstantTag::FALSE as u64 {
        return byte(out, at, ConstantTag::FALSE);
    }
    if tag == ConstantTag::TRUE as u64 {
        return byte(out, at, ConstantTag::TRUE);
    }
    if tag == ConstantTag::INT as u64 {
        return int(out, at, row[1]);
    }
    if tag == ConstantTag::FLOAT as u64 {
        return float(out, at, row[1]);
    }
    if tag == ConstantTag::CHAR as u64 {
        return character(out, at, row[1]);
    }
    if tag == ConstantTag::STRING as u64 {
        return texted(out, at, ConstantTag::STRING, s, row[3], row[4]);
    }
    compound(out, at, s, row)
}

fn kind(out: &mut [u8], at: usize, tag: u64, parameters: u64) -> usize
    ensures { Puts (definition.put_kind (tree.kind (kind_of tag parameters))) out.old at out.new result }
{
    if tag == PointerTag::NORMAL as u64 {
        byte(out, at, PointerTag::NORMAL)
    } else {
        tagged(out, at, PointerTag::SCRIPT, parameters)
    }
}

// All behind the items.
fn foot(out: &mut [u8], at: usize, row: [u64; 8]) -> usize
    ensures { Puts (foot_bytes (constant_of row)) out.old at out.new result }
{
    if owning::pointer(row[0]) {
        kind(out, at, row[1], row[2])
    } else {
        at
    }
}

fn key(out: &mut [u8], at: usize, s: &[u8], keys: bool, row: [u64; 8]) -> usize
    ensures { Puts (key_bytes s.now keys (keyed_of row).key) out.old at out.new result }
{
    if keys {
        text(out, at, s, row[6], row[7])
    } else {
        at
    }
}

// n constants from a row on, each with all that it owns, one level deeper; a map's have keys.
fn items(
    out: &mut [u8],
    at: usize,
    t: &[u64],
    used: usize,
    from: usize,
    n: u64,
    keys: bool,
    deep: usize,
    s: &[u8],
) -> Behind
    requires { ItemsStand deep n t.now used from }
    ensures { PutsItems s.now keys deep n t.now used from out.old at out.new result }
{
    let mut place = at;
    let mut next = from;
    for _ in 0..n {
        let row = row::of(t, next * 8);
        let behind = key(out, place, s, keys, row);
        let told = head(out, behind, s, row);
        let own = items_of(row);
        if own == 0 {
            place = foot(out, told, row);
            next += 1;
        } else {
            let inner = items(
                out,
                told,
                t,
                used,
                next + 1,
                own,
                has_keys(row),
                deep - 1,
                s,
            );
            place = foot(out, inner.place, row);
            next = inner.next;
        }
    }
    Behind { place, next }
}

// The section: the top constants. The counts, the tags and the depth were tested before.
pub fn constants(out: &mut [u8], at: usize, t: &[u64], used: usize, tops: usize, s: &[u8]) -> usize
    requires { ConstantsFit t.now used tops }
    ensures { Puts (definition.put_list (definition.put_constant levels) (constants_of s.now t.now used tops)) out.old at out.new result }
{
    let behind = number(out, at, tops as u64);
    let all = items(
        out,
        behind,
        t,
        used,
        0,
        tops as u64,
        false,
        Limit::DEPTH + 1,
        s,
    );
    all.place
}
