// The words of a row, each as what it holds.
ghost use Rattle.std.specs.Prelude.{[], ◌∷◌, eqb, if◌then◌else◌};
ghost use Rattle.grammar.specs.Number.{shortest, zigzag};
ghost use Rattle.rows.specs.Back as definition;
ghost use Rattle.written.specs.Put.{put_bytes, put_chunk, put_literal, put_position, put_this};
ghost use Rattle.model.specs.Lent.{clip};
ghost use Rattle.emit.specs.Puts.{Puts};
ghost use Rattle.emit.specs.Ways.{position_in};

use crate::base;
use crate::base::{byte, number};
use crate::numbers::{beside, bit, folded, shown, told, typed};
use grammar::Span;

pub fn octet(out: &mut [u8], at: usize, w: u64) -> usize
    ensures { Puts (definition.octet w ∷ []) out.old at out.new result }
{
    byte(out, at, (w % 256) as u8)
}

pub fn small(out: &mut [u8], at: usize, w: u64) -> usize
    ensures { Puts (shortest (definition.small w)) out.old at out.new result }
{
    number(out, at, w % 65536)
}

pub fn index(out: &mut [u8], at: usize, w: u64) -> usize
    ensures { Puts (shortest (definition.index w)) out.old at out.new result }
{
    number(out, at, w % 0x1_0000_0000)
}

pub fn flag(out: &mut [u8], at: usize, w: u64) -> usize
    ensures { Puts ((if eqb w 0 then 0 else 1) ∷ []) out.old at out.new result }
{
    byte(out, at, bit(w))
}

pub fn signed(out: &mut [u8], at: usize, w: u64) -> usize
    ensures { Puts (shortest (zigzag (definition.signed w))) out.old at out.new result }
{
    number(out, at, folded(w))
}

// A count of bytes and the bytes.
pub fn text(out: &mut [u8], at: usize, text: &[u8], start: u64, size: u64) -> usize
    ensures { Puts (put_bytes (clip text.now (record { start = start; size = size }))) out.old at out.new result }
{
    let span = Span {
        start: start as usize,
        size: size as usize,
    };
    base::text(out, at, text, span)
}

// Entry, end, slots.
pub fn chunk(out: &mut [u8], at: usize, entry: u64, end: u64, slots: u64) -> usize
    ensures { Puts (put_chunk (definition.chunk_of entry end slots)) out.old at out.new result }
{
    let begun = index(out, at, entry);
    let ended = index(out, begun, end);
    small(out, ended, slots)
}

pub fn literal(out: &mut [u8], at: usize, present: u64, literal: u64) -> usize
    ensures { Puts (put_literal (definition.literal_of present literal)) out.old at out.new result }
{
    number(out, at, told(present, literal))
}

pub fn this(out: &mut [u8], at: usize, w: u64) -> usize
    ensures { Puts (put_this (definition.this_of w)) out.old at out.new result }
{
    number(out, at, typed(w))
}

pub fn position(out: &mut [u8], at: usize, strip: bool, line: u64, column: u64) -> usize
    ensures { Puts (put_position (position_in strip (definition.position line column))) out.old at out.new result }
{
    let row = shown(strip, line);
    let behind = number(out, at, row);
    number(out, behind, beside(row, column))
}
