// Texts: that a span lies in the lent text (rule 2), and that a string is UTF-8 (rule 3). And a row of the constants: its tag (rule 5)
// and its character (rule 7).
ghost use Rattle.std.specs.Prelude.{◌≡◌, not, ◌||◌, eqb};
ghost use Rattle.rows.specs.Back.{word};
ghost use Rattle.model.specs.Rules as definition;
ghost use Rattle.format.specs.File as file;

use grammar::Span;

// No sum wraps, whatever the words are.
pub fn lies(text: &[u8], start: u64, size: u64) -> bool
    ensures { result ≡ definition.lies text.now (record { start = start; size = size }) }
{
    let there = text.len() as u64;
    start <= there && size <= there - start
}

// The four spans outside the tables.
pub fn outside_lies(text: &[u8], source: Span, blob: Span, code: Span, positions: Span) -> bool
    ensures { result ≡ definition.outside_lies text.now source blob code positions }
{
    let names = lies(text, source.start as u64, source.size as u64)
        & lies(text, blob.start as u64, blob.size as u64);
    let rest = lies(text, code.start as u64, code.size as u64)
        & lies(text, positions.start as u64, positions.size as u64);
    names & rest
}

pub fn is_text(text: &[u8], start: u64, size: u64) -> bool
    ensures { result ≡ definition.is_text text.now (record { start = start; size = size }) }
{
    utf8::is_utf8_at(text, start as usize, size as usize)
}

// Strings and function pointers have a string, blobs a text.
fn named(tag: u64) -> bool
    ensures { result ≡ definition.named tag }
{
    (tag == 0x06) | (tag == 0x0D)
}

fn texted(tag: u64) -> bool
    ensures { result ≡ definition.texted tag }
{
    named(tag) | (tag == 0x09)
}

// What a tag does not use is not looked at: a span that nothing asks about may be as long as the text.
pub fn text_lies(text: &[u8], row: &[u64; 8]) -> bool
    ensures { result ≡ not (definition.texted (definition.tag row.now)) || definition.lies text.now (definition.span_at 3 row.now) }
{
    !texted(row[0]) || lies(text, row[3], row[4])
}

pub fn name_is_text(text: &[u8], row: &[u64; 8]) -> bool
    ensures { result ≡ not (definition.named (definition.tag row.now)) || definition.is_text text.now (definition.span_at 3 row.now) }
{
    !named(row[0]) || is_text(text, row[3], row[4])
}

pub fn known_constant(row: &[u64; 8]) -> bool
    ensures { result ≡ definition.known_constant row.now }
{
    (row[0] <= 0x0B) | ((row[0] == 0x0D) & ((row[1] == 0x81) | (row[1] == 0x82)))
}

fn scalar(code: u64) -> bool
    ensures { result ≡ file.scalar code }
{
    (code < 0xD800) | ((0xE000 <= code) & (code < 0x11_0000))
}

pub fn char_is_scalar(row: &[u64; 8]) -> bool
    ensures { result ≡ not (eqb (definition.tag row.now) 0x05) || file.scalar (word row.now 1) }
{
    (row[0] != 0x05) | scalar(row[1])
}
