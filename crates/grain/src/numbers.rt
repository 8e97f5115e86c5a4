// Numbers and text, for C. The helpers are public for the crate `beside`, whose reads tell their answers in the same way.
ghost use Rattle.std.specs.Prelude.{cond, [], ◌∷◌, ◌≡◌};
ghost use Rattle.utf8.specs.Check.{is_utf8};
ghost use Rattle.grammar.specs.Read.{answer as outcome};
ghost use Rattle.grain.specs.Numbers.{place_at, number_at, number_of, answer, value_or, next_or, pair_or};

use grammar::{Cursor, Read};
use refusal::{Refusal, Row};

pub fn place(at: usize) -> Cursor
    ensures { result ≡ place_at at }
{
    Cursor::new().advance(at)
}

pub fn number_of(r: Refusal) -> u64
    ensures { result ≡ number_of r }
{
    Row::from(r).number
}

pub fn put_pair(out: &mut [u64; 2], value: u64, at: usize)
    ensures { out.new ≡ value ∷ at ∷ [] }
{
    *out = [value, at as u64];
}

// What is told of a read: 0 or the refusal's number, what was read, and the next place.
#[derive(Clone, Copy)]
pub struct Told<T> {
    pub number: u64,
    pub value: T,
    pub next: usize,
}

// Where it was refused: `none`, and the place where it began.
pub fn tell<T: Copy>(read: Read<T>, none: T, at: usize) -> Told<T>
    ensures number { result.number ≡ answer (outcome read) }
    ensures value { result.value ≡ value_or none (outcome read) }
    ensures next { result.next ≡ next_or at (outcome read) }
{
    match read {
        Ok((value, next)) => Told {
            number: 0,
            value,
            next: next.at,
        },
        Err(r) => Told {
            number: number_of(r),
            value: none,
            next: at,
        },
    }
}

// An unsigned number of 64 bits: its value and the next place; where it is refused, 0 and the place where it began.
pub fn grain_number(bytes: &[u8], at: usize, out: &mut [u64; 2]) -> u64
    ensures value { result ≡ answer (number_at 64 bytes.now at) }
    ensures out_after { out.new ≡ pair_or at (number_at 64 bytes.now at) }
{
    let told = tell(varint::uvarint(bytes, place(at)), 0, at);
    put_pair(out, told.value, told.next);
    told.number
}

// 1 where the bytes are UTF-8, else 0.
pub fn grain_utf8(bytes: &[u8]) -> u64
    ensures { result ≡ cond (is_utf8 bytes.now) 1 0 }
{
    utf8::is_utf8(bytes) as u64
}
