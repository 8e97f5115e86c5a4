// Bytes, numbers and texts.
ghost use Rattle.std.specs.Prelude.{◌≡◌, [], ◌∷◌, ◌+◌, ◌-◌, ◌%◌, ◌≤◌, ◌<◌, leb, length, take, drop, if◌then◌else◌};
ghost use Rattle.grammar.specs.Number.{shortest};
ghost use Rattle.written.specs.Put.{put_bytes};
ghost use Rattle.model.specs.Lent.{clip};
ghost use Rattle.emit.specs.Puts.{Puts};

use grammar::Span;

pub fn byte(out: &mut [u8], at: usize, b: u8) -> usize
    ensures { Puts (b ∷ []) out.old at out.new result }
{
    if out.len() <= at {
        return at;
    }
    out[at] = b;
    at + 1
}

// Most numbers are a single byte.
pub fn number(out: &mut [u8], at: usize, v: u64) -> usize
    ensures { Puts (shortest v) out.old at out.new result }
{
    if v < 128 {
        return byte(out, at, v as u8);
    }
    long(out, at, v)
}

// Where five bytes are there, no branch waits for the width of a number that has no more.
fn long(out: &mut [u8], at: usize, v: u64) -> usize
    ensures { Puts (shortest v) out.old at out.new result }
{
    if v < 0x8_0000_0000 && 5 <= out.len().saturating_sub(at) {
        return five(out, at, v);
    }
    exact(out, at, v)
}

// The lowest seven bits, and whether more follow.
fn group(v: u64) -> u8
    ensures { result ≡ v % 128 + (if leb 128 v then 128 else 0) }
{
    let low = (v % 128) as u8;
    if 128 <= v { low + 128 } else { low }
}

// All five bytes are stored, however many of them count: what is put next stands over the others.
fn five(out: &mut [u8], at: usize, v: u64) -> usize
    requires at_in_bounds { at + 5 ≤ length out.old }
    requires v_bound { v < 0x800000000 }
    ensures { Puts (shortest v) out.old at out.new result }
{
    let second = v / 128;
    let third = second / 128;
    let fourth = third / 128;
    let last = group(fourth / 128);
    let groups = [group(v), group(second), group(third), group(fourth), last];
    out[at..at + 5].copy_from_slice(&groups);
    at + varint::size(v)
}

// As many bytes as the number has, and none where they do not fit.
fn exact(out: &mut [u8], at: usize, v: u64) -> usize
    ensures { Puts (shortest v) out.old at out.new result }
{
    if out.len().saturating_sub(at) < varint::size(v) {
        return at;
    }
    varint::put_at(out, at, v)
}

// How many bytes a span has; what lies past the end of the text is not there.
pub fn clipped(text: &[u8], span: Span) -> usize
    ensures { result ≡ length (clip text.now span) }
{
    text.len().saturating_sub(span.start).min(span.size)
}

// Bytes of a text that are there. A few are copied sixteen at a time, where as many are there on both sides: what is put next stands over
// those that do not count.
pub fn copied(out: &mut [u8], at: usize, text: &[u8], from: usize, n: usize) -> usize
    requires { n ≤ length text.now - from }
    ensures { Puts (take n (drop from text.now)) out.old at out.new result }
{
    let room = out.len().saturating_sub(at);
    if n <= 16 && 16 <= room && 16 <= text.len().saturating_sub(from) {
        out[at..at + 16].copy_from_slice(&text[from..from + 16]);
        return at + n;
    }
    if n == 0 || room < n {
        return at;
    }
    copied_each(out, at, text, from, n)
}

// One byte after the other. So many as are known only here would be copied as a slice by memmove, which the archive would need from
// outside.
fn copied_each(out: &mut [u8], at: usize, text: &[u8], from: usize, n: usize) -> usize
    requires there { n ≤ length text.now - from }
    requires room { at + n ≤ length out.old }
    ensures { Puts (take n (drop from text.now)) out.old at out.new result }
{
    for i in 0..n {
        out[at + i] = text[from + i];
    }
    at + n
}

// Bytes that are all put.
pub(crate) fn bytes(out: &mut [u8], at: usize, bytes: &[u8]) -> usize
    ensures { Puts bytes.now out.old at out.new result }
{
    copied(out, at, bytes, 0, bytes.len())
}

// A count of bytes and the bytes.
pub fn text(out: &mut [u8], at: usize, text: &[u8], span: Span) -> usize
    ensures { Puts (put_bytes (clip text.now span)) out.old at out.new result }
{
    let n = clipped(text, span);
    let behind = number(out, at, n as u64);
    copied(out, behind, text, span.start, n)
}
