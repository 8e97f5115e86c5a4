#![tactic(auto)]
// The debug id of a program's tables: 128 bits, held in two halves of 64, into which every byte is mixed in turn.
ghost use Rattle.std.specs.Prelude.{◌≡◌, ◌+◌, ◌*◌, ◌/◌, ◌%◌, ◌^◌};
ghost use Rattle.debug_id.specs.DebugId.{debug_id, mixed, mixed_all, number_of};

// The number high * 2^64 + low.
#[derive(Clone, Copy)]
pub struct DebugId {
    pub low: u64,
    pub high: u64,
}

// x * 315, modulo 2^64: 63 times five times x, which compiles to one multiplication.
fn scaled(x: u64) -> u64
    ensures { result ≡ x * 315 % 2 ^ 64 }
{
    let five = std::num::wrapping_add_u64(x, x << 2);
    std::num::wrapping_sub_u64(five << 6, five)
}

// What x * 315 carries out of 64 bits.
fn carry(x: u64) -> u64
    ensures { result ≡ x * 315 / 2 ^ 64 }
{
    let below = (x % 0x1_0000_0000) * 315 >> 32;
    ((x >> 32) * 315 + below) >> 32
}

// The id with one byte mixed in.
fn mix(id: DebugId, byte: u8) -> DebugId
    ensures { number_of result ≡ mixed (number_of id) byte }
{
    let x = id.low ^ (byte as u64);
    let above = std::num::wrapping_add_u64(carry(x), x << 24);
    DebugId {
        low: scaled(x),
        high: std::num::wrapping_add_u64(scaled(id.high), above),
    }
}

// What two steps carry out of 64 bits, where z is x * 315 with another low byte. The product of the two steps is the carry
// times 2^64 and a low half, which is known. The upper bits of x times 315 * 315 come near to the product over 2^17: at most
// 99226 below it, and at most 1 above. So less the low half over 2^17, and with 2^17 added, they are the carry times 2^47
// and less than 2^47 more.
fn carry_two(x: u64, z: u64) -> u64
    requires { z / 256 ≡ x * 315 % 2 ^ 64 / 256 }
    ensures { result ≡ x * 315 / 2 ^ 64 * 315 + z * 315 / 2 ^ 64 }
{
    let near = (x >> 17) * 99225 + 0x2_0000;
    (near - (scaled(z) >> 17)) >> 47
}

// The id with two bytes mixed in, the first and then the second, with one carry for both.
fn mix_two(id: DebugId, first: u8, second: u8) -> DebugId
    ensures { number_of result ≡ mixed (mixed (number_of id) first) second }
{
    let x = id.low ^ (first as u64);
    let y = scaled(x);
    let z = y ^ (second as u64);
    let both = std::num::wrapping_add_u64(y, z) << 24;
    let above = std::num::wrapping_add_u64(carry_two(x, z), both);
    DebugId {
        low: scaled(z),
        high: std::num::wrapping_add_u64(scaled(scaled(id.high)), above),
    }
}

// The id with every byte mixed in, two at a time.
fn absorb(id: DebugId, bytes: &[u8]) -> DebugId
    ensures { number_of result ≡ mixed_all (number_of id) bytes.now }
{
    let (pairs, last) = bytes.as_chunks::<2>();
    let mut d = id;
    for pair in pairs {
        d = mix_two(d, pair[0], pair[1]);
    }
    match last {
        [byte] => mix(d, *byte),
        _ => d,
    }
}

// The debug id of a table and of the chain bytes.
pub fn debug_id(table: &[u8], chains: &[u8]) -> DebugId
    ensures { number_of result ≡ debug_id table.now chains.now }
{
    let basis = DebugId {
        low: 0x62b8_2175_6295_c58d,
        high: 0x6c62_272e_07bb_0142,
    };
    absorb(absorb(basis, table), chains)
}
