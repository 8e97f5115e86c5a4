#![tactic(auto)]
// What rust/ holds beside the Rust original, as C functions: the numbers that the face (the crate `grain`) has no need of.
//
// A read answers 0, or the refusal's number in document 01's table, and leaves what it read in the places lent to it: where
// it is refused, 0 and the place where it began. One definition says this for every width.
ghost use Rattle.std.specs.Prelude.{◌≡◌, length, pos};
ghost use Rattle.grammar.specs.Number as definition;
ghost use Rattle.varint.specs.Answers.{put_bytes};
ghost use Rattle.grain.specs.Numbers.{number_at, answer, value_or, next_or, pair_or};
ghost use Rattle.beside.specs.Beside.{signed_at, put_answer};

use grain::numbers;

// An unsigned number of 32 bits.
#[unsafe(no_mangle)]
pub extern "C" fn beside_index(bytes: &[u8], at: usize, out: &mut [u64; 2]) -> u64
    ensures value { result ≡ answer (number_at 32 bytes.now at) }
    ensures out_after { out.new ≡ pair_or at (number_at 32 bytes.now at) }
{
    let told = numbers::tell(varint::index(bytes, numbers::place(at)), 0, at);
    numbers::put_pair(out, told.value as u64, told.next);
    told.number
}

// Of 16 bits.
#[unsafe(no_mangle)]
pub extern "C" fn beside_small(bytes: &[u8], at: usize, out: &mut [u64; 2]) -> u64
    ensures value { result ≡ answer (number_at 16 bytes.now at) }
    ensures out_after { out.new ≡ pair_or at (number_at 16 bytes.now at) }
{
    let told = numbers::tell(varint::small(bytes, numbers::place(at)), 0, at);
    numbers::put_pair(out, told.value as u64, told.next);
    told.number
}

// A signed number.
#[unsafe(no_mangle)]
pub extern "C" fn beside_signed(bytes: &[u8], at: usize, value: &mut i64, next: &mut usize) -> u64
    ensures value { result ≡ answer (signed_at bytes.now at) }
    ensures value_after { value.new ≡ value_or (pos 0) (signed_at bytes.now at) }
    ensures next_after { next.new ≡ next_or at (signed_at bytes.now at) }
{
    let told = numbers::tell(varint::ivarint(bytes, numbers::place(at)), 0, at);
    *value = told.value;
    *next = told.next;
    told.number
}

// The shortest form into the front of `out`; `size` is the bytes written, or the bytes needed where there is no room.
#[unsafe(no_mangle)]
pub extern "C" fn beside_put(out: &mut [u8], value: u64, size: &mut usize) -> u64
    ensures value { result ≡ put_answer out.old value }
    ensures out_after { out.new ≡ put_bytes out.old value }
    ensures size_after { size.new ≡ length (definition.shortest value) }
{
    match varint::put(out, value) {
        Ok(n) => {
            *size = n;
            0
        }
        Err(r) => {
            *size = varint::size(value);
            numbers::number_of(r)
        }
    }
}

#[unsafe(no_mangle)]
pub extern "C" fn beside_size(value: u64) -> usize
    ensures { result ≡ length (definition.shortest value) }
{
    varint::size(value)
}

#[unsafe(no_mangle)]
pub extern "C" fn beside_zigzag(z: i64) -> u64
    ensures { result ≡ definition.zigzag z }
{
    varint::zigzag(z)
}

#[unsafe(no_mangle)]
pub extern "C" fn beside_unzigzag(u: u64) -> i64
    ensures { result ≡ definition.unzigzag u }
{
    varint::unzigzag(u)
}
