#![tactic(auto)]
// Gives a stored list of cases to the number reads, to put and to the UTF-8 check, and writes an answer for each.
//
// A case is a line: a word, and what it is given, bytes in hexadecimal or a decimal number. For no bytes the word stands alone.
//   number 8001, index .., small .., signed ..   the value and the next place, or `refused` and the refusal's number
//   put 300                                      the bytes of its shortest form
//   utf8 e282ac                                  yes or no
// Any other line is answered by `bad line`. The file stdout has what the Rust original answered (docs/BESIDE.md).
ghost use Rattle.std.specs.Prelude.{◌≡◌, ◌/◌, ◌<◌, ◌≤◌, IfSome, length};

use grammar::{Cursor, Read};
use refusal::{Refusal, Row};

// The descriptors of standard input and output. Both go through the kit's `io`, which needs no handle, no heap and no Result.
const STDIN_FILENO: i32 = 0;

const STDOUT_FILENO: i32 = 1;

fn say(text: &[u8]) {
    io::write_all(STDOUT_FILENO, text);
}

fn say_number(n: u64) {
    io::print_decimal(STDOUT_FILENO, n);
}

fn bad_line() {
    say(b"bad line");
}

fn say_refused(r: Refusal) {
    say(b"refused ");
    say_number(Row::from(r).number);
}

fn say_signed(value: i64) {
    if value < 0 {
        say(b"-");
    }
    say_number(value.unsigned_abs());
}

// What was read and the next place.
fn say_read<T: Copy, F: Fn(T)>(read: Read<T>, say_value: F)
    requires { F.IsAlwaysCallable say_value }
{
    match read {
        Ok((value, next)) => {
            say_value(value);
            say(b" ");
            say_number(next.at as u64);
        }
        Err(r) => say_refused(r),
    }
}

fn say_bytes(bytes: &[u8]) {
    for b in bytes {
        io::print_hex(STDOUT_FILENO, *b as u64, 2);
    }
}

fn put(value: u64) {
    let mut out = [0u8; 16];
    match varint::put(&mut out, value) {
        Ok(size) => say_bytes(&out[..size]),
        Err(r) => say_refused(r),
    }
}

// The number that a hexadecimal digit stands for; capitals are none.
fn digit(c: u8) -> Option<u8>
    ensures { IfSome result (λ d. d < 16) }
{
    match c {
        b'0'..=b'9' => Some(c - b'0'),
        b'a'..=b'f' => Some(c - b'a' + 10),
        _ => None,
    }
}

// The bytes that digits stand for, two for each byte; none where they are no such digits or have no room.
fn unhex<'a>(given: &[u8], out: &'a mut [u8]) -> Option<&'a [u8]>
    ensures few { IfSome result (λ bytes. length bytes.now ≤ length out.old) }
    ensures two_for_each { IfSome result (λ bytes. length bytes.now ≡ length given.now / 2) }
{
    let n = given.len() / 2;
    if given.len() % 2 != 0 || out.len() < n {
        return None;
    }
    for k in 0..n {
        out[k] = digit(given[2 * k])? << 4 | digit(given[2 * k + 1])?;
    }
    Some(&out[..n])
}

fn decimal(given: &[u8]) -> Option<u64> {
    if given.is_empty() {
        return None;
    }
    let mut value: u64 = 0;
    for c in given {
        let one = (*c as char).to_digit(10)?;
        value = value.checked_mul(10)?.checked_add(one as u64)?;
    }
    Some(value)
}

fn of_number(given: &[u8]) {
    match decimal(given) {
        Some(value) => put(value),
        None => bad_line(),
    }
}

fn of_bytes(word: &[u8], bytes: &[u8]) {
    let start = Cursor::new();
    match word {
        b"number" => say_read(varint::uvarint(bytes, start), say_number),
        b"index" => say_read(varint::index(bytes, start), |k| say_number(k as u64)),
        b"small" => say_read(varint::small(bytes, start), |k| say_number(k as u64)),
        b"signed" => say_read(varint::ivarint(bytes, start), say_signed),
        b"utf8" => say(if utf8::is_utf8(bytes) { b"yes" } else { b"no" }),
        _ => bad_line(),
    }
}

fn of_hex(word: &[u8], given: &[u8]) {
    let mut room = [0u8; 64];
    match unhex(given, &mut room) {
        Some(bytes) => of_bytes(word, bytes),
        None => bad_line(),
    }
}

fn answer(word: &[u8], given: &[u8]) {
    match word {
        b"put" => of_number(given),
        _ => of_hex(word, given),
    }
    say(b"\n");
}

// A line's word ends at its first space, and what the word is given stands behind that.
fn of_line(line: &[u8]) {
    match line.iter().position(|b| *b == b' ') {
        Some(end) => answer(&line[..end], &line[end + 1..]),
        None => answer(line, b""),
    }
}

fn of_list(list: &[u8]) {
    for line in list.split_inclusive(|b| *b == b'\n') {
        of_line(line.strip_suffix(b"\n").unwrap_or(line));
    }
}

fn main() {
    let mut list = io::large_buffer();
    let n = io::read_full(STDIN_FILENO, &mut list);
    of_list(&list[..n]);
}
