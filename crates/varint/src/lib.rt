#![tactic(auto, using(grammar::proofs::Read::reads))]
// LEB128, the encoding everything in a Rhai Grain artifact is counted in (pos/varint.rs, and the number reads of
// `Cursor` in format/mod.rs). A read takes the bytes and a place and answers the next place; a refused one moves nothing.
ghost use Rattle.std.specs.Prelude.{◌≡◌, ◌+◌, ◌-◌, ◌*◌, ◌%◌, ◌^◌, ◌<◌, ◌≤◌, IfOk, IfSome, length};
ghost use Rattle.std.proofs.lemmas.List.Edits.{sets};
ghost use Rattle.grammar.specs.Number as definition;
ghost use Rattle.grammar.specs.Read.{answer};
ghost use Rattle.varint.specs.Answers.{written_is, put_bytes};
ghost use Rattle.varint.specs.Holding.{Holding};
ghost use Rattle.varint.specs.Word.{word, bytes_at, Bytes, payloads};
ghost use Rattle.varint.specs.Answered.{place, answered};

use grammar::{Cursor, Read};
use refusal::Refusal;

// The value with the byte's seven payload bits behind the k groups that it holds already.
fn joined(value: u64, byte: u8, k: usize) -> u64
    requires k_bound { k < 9 }
    requires value_bound { value < 2 ^ (7 * k) }
    ensures { result ≡ value + byte % 128 * 2 ^ (7 * k) }
{
    value | ((byte & 0x7f) as u64) << 7 * k
}

// A number as read, and how many bytes it takes.
#[derive(Clone, Copy)]
struct Number {
    value: u64,
    taken: usize,
}

// An unsigned number.
pub fn uvarint(s: &[u8], c: Cursor) -> Read<u64>
    ensures { definition.number 64 s.now c ≡ answer result }
{
    let left = s.len().saturating_sub(c.at);
    match read_groups(s, c.at, left) {
        Some(number) => Ok((number.value, c.advance(number.taken))),
        None if left < 10 => Err(Refusal::Truncated),
        None => Err(Refusal::MalformedVarint),
    }
}

// Where all of ten bytes are there, none has to be asked for.
fn read_groups(s: &[u8], at: usize, left: usize) -> Option<Number>
    requires { left ≡ length s.now - at }
    ensures taken_le_left { IfSome result (λ number. number.taken ≤ left) }
    ensures at_value { definition.number 64 s.now (place at) ≡ answered left (place at) result }
{
    if left < 10 {
        short(s, at, left)
    } else {
        long(s, at, left)
    }
}

// Near the end of the bytes: one group after the other.
fn short(s: &[u8], at: usize, left: usize) -> Option<Number>
    requires left_value { left ≡ length s.now - at }
    requires left_bound { left < 10 }
    ensures taken_le_left { IfSome result (λ number. number.taken ≤ left) }
    ensures at_value { definition.number 64 s.now (place at) ≡ answered left (place at) result }
{
    let mut value: u64 = 0;
    for k in 0..left {
        let group = s[at + k];
        value = joined(value, group, k);
        if group < 128 {
            return Some(Number {
                value,
                taken: k + 1,
            });
        }
    }
    None
}

// Most numbers are of one byte.
fn long(s: &[u8], at: usize, left: usize) -> Option<Number>
    requires left_value { left ≡ length s.now - at }
    requires le_left { 10 ≤ left }
    ensures taken_le_left { IfSome result (λ number. number.taken ≤ left) }
    ensures at_value { definition.number 64 s.now (place at) ≡ answered left (place at) result }
{
    let first = s[at];
    if first < 128 {
        return Some(Number {
            value: first as u64,
            taken: 1,
        });
    }
    behind_one(s, at, left, (first & 0x7f) as u64)
}

// The next eight bytes are read as one word, and the tenth counts where none of them ends the number: no step waits for a
// byte's end mark.
fn behind_one(s: &[u8], at: usize, left: usize, first: u64) -> Option<Number>
    requires left_value { left ≡ length s.now - at }
    requires le_left { 10 ≤ left }
    requires holding { Holding s.now (place at) first 1 }
    ensures taken_le_left { IfSome result (λ number. number.taken ≤ left) }
    ensures at_value { definition.number 64 s.now (place at) ≡ answered left (place at) result }
{
    let x = eight(s, at + 1);
    let ends = !x & 0x8080_8080_8080_8080;
    let zeros = u64::trailing_zeros(ends);
    let tenth = s[at + 9] as u64 * (zeros / 64) as u64;
    if 1 < tenth {
        return None;
    }
    let kept = x & std::num::wrapping_sub_u64(ends, 1);
    Some(Number {
        value: first | squeezed(kept) << 7 | tenth << 63,
        taken: (zeros / 8) as usize + 2,
    })
}

// Eight bytes as one word, the first lowest; it is compiled to one load.
fn eight(s: &[u8], at: usize) -> u64
    requires { at + 8 ≤ length s.now }
    ensures value { result ≡ word (bytes_at s.now at 8) }
    ensures bytes { Bytes (bytes_at s.now at 8) }
{
    let low = s[at] as u64
        | (s[at + 1] as u64) << 8
        | (s[at + 2] as u64) << 16
        | (s[at + 3] as u64) << 24;
    low | (s[at + 4] as u64) << 32
        | (s[at + 5] as u64) << 40
        | (s[at + 6] as u64) << 48
        | (s[at + 7] as u64) << 56
}

// The payloads of eight bytes side by side: of neighbours, of pairs, and of fours.
fn squeezed(x: u64) -> u64
    ensures { result ≡ payloads 8 x }
{
    let a = x & 0x007f_007f_007f_007f | (x & 0x7f00_7f00_7f00_7f00) >> 1;
    let b = a & 0x0000_3fff_0000_3fff | (a & 0x3fff_0000_3fff_0000) >> 2;
    b & 0x0fff_ffff | (b & 0x0fff_ffff_0000_0000) >> 4
}

// A number of fewer bits. By `match`: with `?` in it LLVM finds it too large to be inlined where indices are read, and each of their
// answers goes through memory.
fn narrow<const BITS: u32>(s: &[u8], c: Cursor) -> Read<u64>
    requires { BITS < 64 }
    ensures value { definition.number BITS s.now c ≡ answer result }
    ensures fits { IfOk result (λ read. read.0 < 2 ^ BITS) }
{
    match uvarint(s, c) {
        Ok((value, next)) if value < 1 << BITS => Ok((value, next)),
        Ok(_) => Err(Refusal::MalformedVarint),
        Err(r) => Err(r),
    }
}

// A number of 32 bits, as indices are.
pub fn index(s: &[u8], c: Cursor) -> Read<u32>
    ensures { definition.index s.now c ≡ answer result }
{
    let (value, next) = narrow::<32>(s, c)?;
    Ok((value as u32, next))
}

// A number of 16 bits.
pub fn small(s: &[u8], c: Cursor) -> Read<u16>
    ensures { definition.small s.now c ≡ answer result }
{
    let (value, next) = narrow::<16>(s, c)?;
    Ok((value as u16, next))
}

// A signed number.
#[tactic(auto, using(grammar::proofs::Read::reads), unfolding(grammar::specs::Number::signed))]
pub fn ivarint(s: &[u8], c: Cursor) -> Read<i64>
    ensures { definition.signed s.now c ≡ answer result }
{
    let (folded, next) = uvarint(s, c)?;
    Ok((unzigzag(folded), next))
}

// The signed number that an unsigned one means: the complement of the half is minus the half and one.
pub fn unzigzag(u: u64) -> i64
    ensures { result ≡ definition.unzigzag u }
{
    let half = (u >> 1) as i64;
    if u & 1 == 0 { half } else { !half }
}

// The unsigned number that means a signed one.
pub fn zigzag(z: i64) -> u64
    ensures { result ≡ definition.zigzag z }
{
    if 0 <= z {
        (z as u64) << 1
    } else {
        (!z as u64) << 1 | 1
    }
}

// How many bytes the shortest form of a number takes: a group for each seven bits. With its lowest bit set no number is 0, and
// none has more groups; one whose highest bit stands at place p, 63 at most, has p + 1 bits, and a seventh of them rounded up
// is (9 * p + 73) / 64.
pub fn size(value: u64) -> usize
    ensures { result ≡ length (definition.shortest value) }
{
    let top = 63 - u64::leading_zeros(value | 1) as usize;
    (9 * top + 73) / 64
}

// The shortest form into the front of `out`; where it has no room nothing is touched.
pub fn put(out: &mut [u8], value: u64) -> Result<usize, Refusal>
    ensures value { result ≡ written_is (length out.old) value }
    ensures out_after { out.new ≡ put_bytes out.old value }
{
    let needed = size(value);
    if out.len() < needed {
        return Err(Refusal::NoRoom { needed });
    }
    put_at(out, 0, value);
    Ok(needed)
}

// The same from a place on, for callers that have tested the room; the place behind it is handed back.
pub fn put_at(out: &mut [u8], at: usize, value: u64) -> usize
    requires { at + length (definition.shortest value) ≤ length out.old }
    ensures value { result ≡ at + length (definition.shortest value) }
    ensures out_after { out.new ≡ sets out.old at (definition.shortest value) }
{
    let mut rest = value;
    let mut k: usize = 0;
    // Not a `for`: how many groups there are is known by what is left of the value.
    while 128 <= rest {
        out[at + k] = (rest & 0x7f) as u8 | 0x80;
        rest = rest >> 7;
        k += 1;
    }
    out[at + k] = rest as u8;
    at + k + 1
}
