// Numbers and text.
ghost use Rattle.std.specs.Prelude.{cond, ◌≡◌};
ghost use Rattle.utf8.specs.Check.{is_utf8};
ghost use Rattle.grain.specs.Numbers.{number_at, answer, pair_or};

use grain::numbers;

// An unsigned number of 64 bits: its value and the next place; where it is refused, 0 and the place where it began.
#[unsafe(no_mangle)]
pub extern "C" fn grain_number(bytes: &[u8], at: usize, out: &mut [u64; 2]) -> u64
    ensures value { result ≡ answer (number_at 64 bytes.now at) }
    ensures out_after { out.new ≡ pair_or at (number_at 64 bytes.now at) }
{
    numbers::grain_number(bytes, at, out)
}

// 1 where the bytes are UTF-8, else 0.
#[unsafe(no_mangle)]
pub extern "C" fn grain_utf8(bytes: &[u8]) -> u64
    ensures { result ≡ cond (is_utf8 bytes.now) 1 0 }
{
    numbers::grain_utf8(bytes)
}
