// Places, and the sizes of numbers and texts.
ghost use Rattle.std.specs.Prelude.{◌≡◌, ◌+◌, ◌≤◌, min, length, if◌then◌else◌};
ghost use Rattle.grammar.specs.Number.{shortest};
ghost use Rattle.written.specs.Put.{put_bytes};
ghost use Rattle.model.specs.Lent.{clip};
ghost use Rattle.sizes.specs.Counts.{Counts};

use emit::base::clipped;
use format::tags::Limit;
use grammar::Span;

// One above the longest file: a place that stands for every one past the limit.
const PAST: usize = Limit::BYTES + 1;

// What is one thing or the other; both are known, so that nothing waits for the test.
pub fn choose(yes: bool, n: usize, other: usize) -> usize
    ensures value { result ≡ (if yes then n else other) }
    ensures upper_bound { result ≤ n + other }
{
    if yes { n } else { other }
}

// The place n bytes on; neither place nor number is so high that the sum wraps.
pub fn plus(at: usize, n: usize) -> usize
    requires at_bound { at ≤ 1048577 }
    requires n_bound { n ≤ 2000000 }
    ensures { result ≡ min (at + n) 1048577 }
{
    (at + n).min(PAST)
}

// The sizes of numbers and of rows have a bound beside them, so that no sum of them wraps.
pub fn number(v: u64) -> usize
    ensures value { result ≡ length (shortest v) }
    ensures upper_bound { result ≤ 10 }
{
    varint::size(v)
}

// A count of bytes and the bytes; past the limit no more of them need be counted.
pub fn text(at: usize, s: &[u8], span: Span) -> usize
    requires { at ≤ 1048577 }
    ensures { Counts (put_bytes (clip s.now span)) at result }
{
    let n = clipped(s, span);
    plus(at, number(n as u64) + n.min(PAST))
}
