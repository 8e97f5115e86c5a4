// Constants: each one's own size, and its items' one level deeper. Only where a constant has items there is a call.
ghost use Rattle.std.specs.Prelude.{◌≡◌, ◌++◌, ◌≤◌, length};
ghost use Rattle.format.specs.Artifact.{levels};
ghost use Rattle.rows.specs.Back.{word, kind_of, constant_of, keyed_of};
ghost use Rattle.rows.specs.Tree as tree;
ghost use Rattle.written.specs.Put as definition;
ghost use Rattle.emit.specs.Constants.{head_bytes, foot_bytes, key_bytes, ItemsStand, ConstantsFit, constants_of};
ghost use Rattle.sizes.specs.Counts.{Counts};
ghost use Rattle.sizes.specs.Items.{is_range, has_text, where_used, words_of, CountsItems};

use crate::base::{choose, number, plus};
use crate::words::{index, signed, spanned};
use emit::constant::Behind;
use emit::owning::{has_keys, items_of, listed, pointer};
use format::tags::{ConstantTag, Limit, PointerTag};
use rows::row;

fn when(yes: bool, n: usize) -> usize
    ensures value { result ≡ where_used yes n }
    ensures upper_bound { result ≤ n }
{
    choose(yes, n, 0)
}

fn ranged(tag: u64) -> bool
    ensures { result ≡ is_range tag }
{
    tag == ConstantTag::RANGE as u64 || tag == ConstantTag::RANGE_INCLUSIVE as u64
}

// A string, a blob and a function pointer.
fn texted(tag: u64) -> bool
    ensures { result ≡ has_text tag }
{
    pointer(tag) || tag == ConstantTag::STRING as u64 || tag == ConstantTag::BLOB as u64
}

// A function pointer's kind.
fn kind(tag: u64, parameters: u64) -> usize
    ensures value { result ≡ length (definition.put_kind (tree.kind (kind_of tag parameters))) }
    ensures upper_bound { result ≤ 20 }
{
    choose(tag == PointerTag::NORMAL as u64, 1, 1 + number(parameters))
}

// The tag and the numbers.
fn words(row: [u64; 8]) -> usize
    ensures value { result ≡ words_of (word row 0) row }
    ensures upper_bound { result ≤ 100 }
{
    let tag = row[0];
    let range = ranged(tag);
    let first = when(tag == ConstantTag::INT as u64 || range, signed(row[1]));
    let last = when(range, signed(row[2]));
    let code = when(tag == ConstantTag::CHAR as u64, index(row[1]));
    let float = when(tag == ConstantTag::FLOAT as u64, 8);
    let items = when(listed(tag), number(row[5]));
    let behind = when(pointer(tag), kind(row[1], row[2]));
    1 + first + last + code + float + items + behind
}

// All but the items.
fn constant(at: usize, s: &[u8], row: [u64; 8]) -> usize
    requires { at ≤ 1048577 }
    ensures { Counts (head_bytes s.now (constant_of row) ++ foot_bytes (constant_of row)) at result }
{
    let told = when(texted(row[0]), spanned(0, s, row[3], row[4]));
    plus(at, words(row) + told)
}

// All the constants of a run have keys or none has, so that this branch is foreseen.
fn key(at: usize, s: &[u8], keys: bool, row: [u64; 8]) -> usize
    requires { at ≤ 1048577 }
    ensures { Counts (key_bytes s.now keys (keyed_of row).key) at result }
{
    if keys {
        spanned(at, s, row[6], row[7])
    } else {
        at
    }
}

// n constants from a row on, each with all that it owns, one level deeper; a map's have keys.
fn items(
    at: usize,
    t: &[u64],
    used: usize,
    from: usize,
    n: u64,
    keys: bool,
    deep: usize,
    s: &[u8],
) -> Behind
    requires at_bound { at ≤ 1048577 }
    requires items_stand { ItemsStand deep n t.now used from }
    ensures { CountsItems s.now keys deep n t.now used from at result }
{
    let mut place = at;
    let mut next = from;
    for _ in 0..n {
        let row = row::of(t, next * 8);
        let behind = constant(key(place, s, keys, row), s, row);
        let own = items_of(row);
        if own == 0 {
            place = behind;
            next += 1;
        } else {
            let inner = items(behind, t, used, next + 1, own, has_keys(row), deep - 1, s);
            place = inner.place;
            next = inner.next;
        }
    }
    Behind { place, next }
}

// The section: the top constants. The counts, the tags and the depth were tested before.
pub fn constants(at: usize, t: &[u64], used: usize, tops: usize, s: &[u8]) -> usize
    requires at_bound { at ≤ 1048577 }
    requires constants_fit { ConstantsFit t.now used tops }
    ensures { Counts (definition.put_list (definition.put_constant levels) (constants_of s.now t.now used tops)) at result }
{
    let behind = plus(at, number(tops as u64));
    let all = items(behind, t, used, 0, tops as u64, false, Limit::DEPTH + 1, s);
    all.place
}
