// Most numbers of a table take at most three bytes, and most entries three to five. They are passed here, with no
// refusal at hand: what is not short is none here, and left to the readers of reading.rt.
ghost use Rattle.std.specs.Prelude.{◌≡◌, IfSome};
ghost use Rattle.grammar.specs.Outcome.{start, advanced, got};
ghost use Rattle.position_table.specs.Table.{field};
ghost use Rattle.pos.specs.Skim.{begins, walk_at, Whole, SoundAt, Runs};

use grammar::Cursor;

// The numbers of an entry of three single bytes.
#[derive(Clone, Copy)]
pub struct ShortSite {
    pub step: u32,
    pub line: u32,
    pub column: u32,
}

// Where a walk through a table stands: the place, the entries left, the least step that may follow, and what the address
// is below the walk's limit.
#[derive(Clone, Copy)]
pub struct Walk {
    pub c: Cursor,
    pub left: u32,
    pub least: u32,
    pub room: u64,
}

// A walk from the first entry on.
pub fn begun(c: Cursor, count: u32, limit: u64) -> Walk
    ensures { result ≡ begins c count limit }
{
    Walk {
        c,
        left: count,
        least: 0,
        room: limit,
    }
}

// A number of at most three bytes.
pub fn number(table: &[u8], c: Cursor) -> Option<(u32, Cursor)>
    ensures { IfSome result (λ read. field table.now c ≡ got read.0 read.1) }
{
    let at = c.at;
    if table.len() <= at {
        return None;
    }
    let left = table.len() - at;
    let low = table[at];
    if low < 128 {
        return Some((low as u32, c.advance(1)));
    }
    if left <= 1 {
        return None;
    }
    let mid = table[at + 1];
    if mid < 128 {
        let value = (low - 128) as u32 + mid as u32 * 128;
        return Some((value, c.advance(2)));
    }
    if left <= 2 {
        return None;
    }
    let top = table[at + 2];
    if top < 128 {
        let value = (low - 128) as u32 + (mid - 128) as u32 * 128 + top as u32 * 16384;
        return Some((value, c.advance(3)));
    }
    None
}

// An entry of three single bytes, by one test of the bytes left.
pub fn site(table: &[u8], c: Cursor) -> Option<ShortSite>
    ensures { IfSome result (λ e. Whole table.now c e.step e.line e.column 3) }
{
    let at = c.at;
    if table.len() <= at {
        return None;
    }
    if table.len() - at <= 2 {
        return None;
    }
    let step = table[at];
    let line = table[at + 1];
    let column = table[at + 2];
    if 128 <= step | line | column {
        return None;
    }
    Some(ShortSite {
        step: step as u32,
        line: line as u32,
        column: column as u32,
    })
}

// The count where it is a single byte.
fn single(table: &[u8]) -> Option<u32>
    ensures { IfSome result (λ n. field table.now start ≡ got n (advanced start 1)) }
{
    if table.len() == 0 {
        return None;
    }
    let count = table[0];
    if 128 <= count {
        return None;
    }
    Some(count as u32)
}

// A table of one entry, of single bytes, by one look.
pub fn alone(table: &[u8]) -> bool
    ensures { SoundAt table.now result }
{
    if table.len() != 4 {
        return false;
    }
    if table[0] != 1 {
        return false;
    }
    table[1] | table[2] | table[3] < 128
}

fn standing(at: usize, left: u32, least: u32, room: u64) -> Walk
    ensures { result ≡ walk_at at left least room }
{
    Walk {
        c: Cursor::new().advance(at),
        left,
        least,
        room,
    }
}

// The walk on, as far as steps and columns are single bytes, lines take at most three, and the steps pass. The bytes are
// read right here: with a function between, the slice would come through memory.
pub fn run(table: &[u8], from: usize, count: u32, over: u32, within: u64) -> Walk
    ensures { Runs table.now from count over within result }
{
    let mut at = from;
    let mut left = count;
    let mut least = over;
    let mut room = within;
    if table.len() < at {
        return standing(at, left, least, room);
    }
    // Not a `for`: an entry takes three to five bytes, and the walk stops where one is not short.
    while 0 < left {
        let rest = table.len() - at;
        if rest <= 2 {
            break;
        }
        let step = table[at];
        if (step as u32) < least {
            break;
        }
        if room <= step as u64 {
            break;
        }
        if step | table[at + 1] | table[at + 2] < 128 {
            at += 3;
        } else {
            if rest <= 3 {
                break;
            }
            if step | table[at + 2] | table[at + 3] < 128 {
                at += 4;
            } else {
                if rest <= 4 {
                    break;
                }
                if 128 <= step | table[at + 3] | table[at + 4] {
                    break;
                }
                if table[at + 1] & table[at + 2] < 128 {
                    break;
                }
                at += 5;
            }
        }
        left -= 1;
        least = 1;
        room -= step as u64;
    }
    standing(at, left, least, room)
}

// Whether a walk from a count of a single byte ends with the table.
pub fn passes(table: &[u8]) -> bool
    ensures { SoundAt table.now result }
{
    match single(table) {
        Some(n) => {
            let w = run(table, 1, n, 0, 0x1_0000_0000);
            w.left == 0 && w.c.at == table.len()
        }
        None => false,
    }
}
