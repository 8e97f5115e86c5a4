#![tactic(auto)]
// The check of RFC 3629, section 4: whether bytes are UTF-8, in one pass.
//
// Runs of ASCII are skipped in blocks. Any other text goes through a machine, whose state says what the
// character at hand still owes. Where a byte leads from every state stands in one word, six bits for each
// state at the place that is the state's own number: a step is a shift, and no branch depends on a byte.
ghost use Rattle.std.specs.Prelude.{◌≡◌, ◌+◌, ◌<◌, ◌≤◌, min, length, take, drop};
ghost use Rattle.utf8.specs.Check.{next, is_utf8};
ghost use Rattle.utf8.specs.Machine.{state_of, Numbered, Means, Tables, Walked, Passed, Covers, Screens, Sees};

// The states: refused, and for each row of the RFC's table what it owes behind its first byte. The row of
// ASCII owes nothing, and that is the state between characters.
const REFUSED: u64 = 0;

const BETWEEN: u64 = 6;

const BEHIND_C2: u64 = 12;

const BEHIND_E0: u64 = 18;

const BEHIND_E1: u64 = 24;

const BEHIND_ED: u64 = 30;

const BEHIND_EE: u64 = 36;

const BEHIND_F0: u64 = 42;

const BEHIND_F1: u64 = 48;

const BEHIND_F4: u64 = 54;

// Where any tail leads, from the states that take every tail.
const TAIL: u64 = BETWEEN << BEHIND_C2
    | BEHIND_C2 << BEHIND_E1
    | BEHIND_C2 << BEHIND_EE
    | BEHIND_E1 << BEHIND_F1;

// Where the bytes of each class lead, by the letter of the class: '@' is 0, 'A' is 1, and so on. 'B', 'C' and
// 'D' are the tails, which fall apart where a first byte takes some of them only.
const WORDS: [u64; 16] = [
    REFUSED,
    BETWEEN << BETWEEN,
    TAIL | BEHIND_C2 << BEHIND_ED | BEHIND_E1 << BEHIND_F4,
    TAIL | BEHIND_C2 << BEHIND_ED | BEHIND_E1 << BEHIND_F0,
    TAIL | BEHIND_C2 << BEHIND_E0 | BEHIND_E1 << BEHIND_F0,
    BEHIND_C2 << BETWEEN,
    BEHIND_E0 << BETWEEN,
    BEHIND_E1 << BETWEEN,
    BEHIND_ED << BETWEEN,
    BEHIND_EE << BETWEEN,
    BEHIND_F0 << BETWEEN,
    BEHIND_F1 << BETWEEN,
    BEHIND_F4 << BETWEEN,
    REFUSED,
    REFUSED,
    REFUSED,
];

// The class of each byte, a line for each high digit.
const CLASSES: [u8; 256] = *b"\
    AAAAAAAAAAAAAAAA\
    AAAAAAAAAAAAAAAA\
    AAAAAAAAAAAAAAAA\
    AAAAAAAAAAAAAAAA\
    AAAAAAAAAAAAAAAA\
    AAAAAAAAAAAAAAAA\
    AAAAAAAAAAAAAAAA\
    AAAAAAAAAAAAAAAA\
    BBBBBBBBBBBBBBBB\
    CCCCCCCCCCCCCCCC\
    DDDDDDDDDDDDDDDD\
    DDDDDDDDDDDDDDDD\
    @@EEEEEEEEEEEEEE\
    EEEEEEEEEEEEEEEE\
    FGGGGGGGGGGGGHII\
    JKKKL@@@@@@@@@@@";

// The state that a byte leads to.
fn next_state(state: u64, byte: u8, classes: &[u8; 256], words: &[u64; 16]) -> u64
    requires numbered { Numbered state }
    requires tables { Tables classes.now words.now }
    ensures { Means result (next (state_of state) byte) }
{
    let class = classes[byte as usize] & 15;
    words[class as usize] >> state & 63
}

// The state behind the bytes from a place to an end. The tables are lent: so they are laid out only once.
fn walk(
    bytes: &[u8],
    from: usize,
    end: usize,
    start: u64,
    classes: &[u8; 256],
    words: &[u64; 16],
) -> u64
    requires from_le_end { (from ≤ end) × (end ≤ length bytes.now) }
    requires numbered { Numbered start }
    requires tables { Tables classes.now words.now }
    ensures { Walked bytes.now start from result end }
{
    let mut state = start;
    for at in from..end {
        state = next_state(state, bytes[at], classes, words);
    }
    state
}

// A block of bytes or-ed together: below 128 only where each of them is ASCII.
fn block<const N: usize>(bytes: &[u8], at: usize) -> u8
    requires { at + N ≤ length bytes.now }
    ensures { Covers bytes.now at N result }
{
    let mut all: u8 = 0;
    for k in 0..N {
        all |= bytes[at + k];
    }
    all
}

// Past the ASCII at a place, a block at a time. A turn goes on by a block, so no range counts the places.
fn past<const N: usize>(bytes: &[u8], from: usize) -> usize
    requires size { 0 < N }
    requires from_in_bounds { from ≤ length bytes.now }
    ensures { Passed bytes.now from result }
{
    let mut at = from;
    while N <= bytes.len() - at {
        if 128 <= block::<N>(bytes, at) {
            return at;
        }
        at += N;
    }
    at
}

// Between characters, past the blocks of ASCII; inside one, no further.
fn past_blocks(bytes: &[u8], at: usize, state: u64) -> usize
    requires at_in_bounds { at ≤ length bytes.now }
    requires numbered { Numbered state }
    ensures { Walked bytes.now state at state result }
{
    if state == BETWEEN {
        past::<16>(bytes, past::<64>(bytes, at))
    } else {
        at
    }
}

// How far the machine goes before it looks for a block of ASCII again.
fn chunk_end(at: usize, size: usize) -> usize
    requires { at ≤ size }
    ensures { result ≡ min (at + 32) size }
{
    at + (size - at).min(32)
}

// The machine, from a place between two characters.
fn is_utf8_from(bytes: &[u8], from: usize) -> bool
    requires { from ≤ length bytes.now }
    ensures { result ≡ is_utf8 (drop from bytes.now) }
{
    let classes = CLASSES;
    let words = WORDS;
    let mut state = BETWEEN;
    let mut at = from;
    // Not a `for`: whole blocks are passed at once, so that no turn goes as far as another.
    while at < bytes.len() {
        let start = past_blocks(bytes, at, state);
        let end = chunk_end(start, bytes.len());
        state = walk(bytes, start, end, state, &classes, &words);
        if state == REFUSED {
            return false;
        }
        at = end;
    }
    state == BETWEEN
}

// Whether the bytes are UTF-8. Text that is all ASCII never meets the machine.
pub fn is_utf8(bytes: &[u8]) -> bool
    ensures { result ≡ is_utf8 bytes.now }
{
    let at = past::<1>(bytes, past::<16>(bytes, past::<64>(bytes, 0)));
    if at < bytes.len() {
        is_utf8_from(bytes, at)
    } else {
        true
    }
}

// The first n bytes of a block or-ed together, in their highest bits: below 128 only where each of them is ASCII. What a byte is and-ed
// with has that bit before the n-th only, so no branch asks where the text ends.
fn front(bytes: &[u8], at: usize, n: usize) -> u8
    requires at_in_bounds { at + 16 ≤ length bytes.now }
    requires n_bound { n ≤ 16 }
    ensures { Screens bytes.now at n result }
{
    let mut all: u8 = 0;
    for i in 0..16 {
        all |= bytes[at + i] & (127 + n - i) as u8;
    }
    all
}

// Short text is seen to be ASCII by the block that it begins, of which its bytes count, or by one at its front and one up to its end,
// which may overlap: no loop depends on how short it is. Otherwise the answer is no.
fn is_short_ascii(s: &[u8], start: usize, size: usize) -> bool
    requires { start + size ≤ length s.now }
    ensures { Sees result s.now start size }
{
    let end = start + size;
    if size < 16 {
        if s.len() - start < 16 {
            return false;
        }
        return front(s, start, size) < 128;
    }
    if size < 32 {
        return block::<16>(s, start) | block::<16>(s, end - 16) < 128;
    }
    false
}

// The machine alone: in short text that is not all ASCII no block of ASCII is looked for.
fn is_utf8_by_byte(bytes: &[u8]) -> bool
    ensures { result ≡ is_utf8 bytes.now }
{
    let classes = CLASSES;
    let words = WORDS;
    walk(bytes, 0, bytes.len(), BETWEEN, &classes, &words) == BETWEEN
}

// Whether so many bytes from a place on are UTF-8; what lies past the end is not there.
pub fn is_utf8_at(s: &[u8], start: usize, size: usize) -> bool
    ensures { result ≡ is_utf8 (take size (drop start s.now)) }
{
    if s.len() <= start {
        return true;
    }
    if s.len() - start < size {
        return is_utf8(&s[start..]);
    }
    if is_short_ascii(s, start, size) {
        return true;
    }
    let end = start + size;
    if size < 32 {
        return is_utf8_by_byte(&s[start..end]);
    }
    is_utf8(&s[start..end])
}
