// The sizes of a row's words, each as what it holds.
ghost use Rattle.std.specs.Prelude.{◌≡◌, ◌≤◌, length};
ghost use Rattle.grammar.specs.Number.{shortest, zigzag};
ghost use Rattle.rows.specs.Back as definition;
ghost use Rattle.written.specs.Put.{put_bytes, put_position};
ghost use Rattle.model.specs.Lent.{clip};
ghost use Rattle.emit.specs.Ways.{position_in};
ghost use Rattle.sizes.specs.Counts.{Counts};

use crate::base::{number, text};
use emit::numbers::{beside, folded, shown};
use grammar::Span;

pub fn small(w: u64) -> usize
    ensures value { result ≡ length (shortest (definition.small w)) }
    ensures upper_bound { result ≤ 10 }
{
    number(w % 65536)
}

pub fn index(w: u64) -> usize
    ensures value { result ≡ length (shortest (definition.index w)) }
    ensures upper_bound { result ≤ 10 }
{
    number(w % 0x1_0000_0000)
}

pub fn signed(w: u64) -> usize
    ensures value { result ≡ length (shortest (zigzag (definition.signed w))) }
    ensures upper_bound { result ≤ 10 }
{
    number(folded(w))
}

pub fn position(strip: bool, line: u64, column: u64) -> usize
    ensures value { result ≡ length (put_position (position_in strip (definition.position line column))) }
    ensures upper_bound { result ≤ 20 }
{
    let row = shown(strip, line);
    number(row) + number(beside(row, column))
}

// The bytes of a span and their count.
pub fn spanned(at: usize, s: &[u8], start: u64, size: u64) -> usize
    requires { at ≤ 1048577 }
    ensures { Counts (put_bytes (clip s.now (record { start = start; size = size }))) at result }
{
    let span = Span {
        start: start as usize,
        size: size as usize,
    };
    text(at, s, span)
}
