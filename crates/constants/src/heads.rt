#![tactic(auto, using(grammar::proofs::Read::reads, crate::proofs::Headed::heads))]
// What stands before a constant's items: its tag, its number or its text, and how many items follow.
ghost use Rattle.std.specs.Prelude.{◌≡◌};
ghost use Rattle.grammar.specs.Read.{answer};
ghost use Rattle.constants.specs.Parts as parts;

use format::tags::ConstantTag;
use grammar::{Cursor, Read, Span};
use refusal::{Place, Refusal};

// The words of a row that are known before the items, with the items' count, and whether the items have keys and
// a function pointer's kind follows them. Words stand before bytes, so that each is read back as it was stored.
#[derive(Clone, Copy)]
pub struct Head {
    pub a: u64,
    pub b: u64,
    pub span: Span,
    pub items: u64,
    pub tag: u8,
    pub keyed: bool,
    pub pointer: bool,
}

// Neither a number nor a text, and no items.
const BARE: Head = Head {
    a: 0,
    b: 0,
    span: Span { start: 0, size: 0 },
    items: 0,
    tag: 0,
    keyed: false,
    pointer: false,
};

// A head with neither text nor items.
fn single(tag: u8, a: u64, b: u64) -> Head
    ensures { result ≡ parts.single tag a b }
{
    Head { tag, a, b, ..BARE }
}

// A head that is a text.
fn texted(tag: u8, span: Span) -> Head
    ensures { result ≡ parts.texted tag span }
{
    Head { tag, span, ..BARE }
}

pub fn head_of(s: &[u8], c: Cursor) -> Read<Head>
    ensures { parts.headed parts.front s.now c ≡ answer result }
{
    let (tag, c) = fields::byte(s, c)?;
    by_tag(s, c, tag)
}

#[tactic(auto, using(crate::proofs::Tags::tags, crate::proofs::Headed::by_tag), unfolding(crate::specs::Parts::front_of))]
fn by_tag(s: &[u8], c: Cursor, tag: u8) -> Read<Head>
    ensures { parts.headed (parts.front_of tag) s.now c ≡ answer result }
{
    match tag {
        ConstantTag::UNIT | ConstantTag::FALSE | ConstantTag::TRUE => Ok((single(tag, 0, 0), c)),
        ConstantTag::INT => int(s, c),
        ConstantTag::FLOAT => float(s, c),
        ConstantTag::CHAR => char(s, c),
        ConstantTag::STRING => str(s, c),
        ConstantTag::ARRAY => array(s, c),
        ConstantTag::MAP => map(s, c),
        ConstantTag::BLOB => blob(s, c),
        ConstantTag::RANGE => range(s, c, false),
        ConstantTag::RANGE_INCLUSIVE => range(s, c, true),
        ConstantTag::FN_PTR => pointer(s, c),
        _ => Err(Refusal::UnknownTag {
            place: Place::Constant,
            byte: tag,
        }),
    }
}

fn int(s: &[u8], c: Cursor) -> Read<Head>
    ensures { parts.headed parts.int_front s.now c ≡ answer result }
{
    let (value, c) = varint::ivarint(s, c)?;
    Ok((single(ConstantTag::INT, fields::bits_of(value), 0), c))
}

fn float(s: &[u8], c: Cursor) -> Read<Head>
    ensures { parts.headed parts.float_front s.now c ≡ answer result }
{
    let (value, c) = crate::words::word(s, c)?;
    Ok((single(ConstantTag::FLOAT, value, 0), c))
}

fn char(s: &[u8], c: Cursor) -> Read<Head>
    ensures { parts.headed parts.char_front s.now c ≡ answer result }
{
    let (code, c) = varint::index(s, c)?;
    if char::from_u32(code).is_none() {
        return Err(Refusal::MalformedVarint);
    }
    Ok((single(ConstantTag::CHAR, code as u64, 0), c))
}

fn str(s: &[u8], c: Cursor) -> Read<Head>
    ensures { parts.headed parts.str_front s.now c ≡ answer result }
{
    let (span, c) = fields::string(s, c)?;
    Ok((texted(ConstantTag::STRING, span), c))
}

fn blob(s: &[u8], c: Cursor) -> Read<Head>
    ensures { parts.headed parts.blob_front s.now c ≡ answer result }
{
    let (span, c) = fields::run(s, c)?;
    Ok((texted(ConstantTag::BLOB, span), c))
}

// Two functions, this and the next: each is one read and one record, as short as a call of one over the tag and the keys.
fn array(s: &[u8], c: Cursor) -> Read<Head>
    ensures { parts.headed parts.array_front s.now c ≡ answer result }
{
    let (items, c) = varint::uvarint(s, c)?;
    let head = Head {
        tag: ConstantTag::ARRAY,
        items,
        ..BARE
    };
    Ok((head, c))
}

fn map(s: &[u8], c: Cursor) -> Read<Head>
    ensures { parts.headed parts.map_front s.now c ≡ answer result }
{
    let (items, c) = varint::uvarint(s, c)?;
    let head = Head {
        tag: ConstantTag::MAP,
        items,
        keyed: true,
        ..BARE
    };
    Ok((head, c))
}

fn range(s: &[u8], c: Cursor, inclusive: bool) -> Read<Head>
    ensures { parts.headed (parts.range_front inclusive) s.now c ≡ answer result }
{
    let (from, c) = varint::ivarint(s, c)?;
    let (to, c) = varint::ivarint(s, c)?;
    let tag = if inclusive {
        ConstantTag::RANGE_INCLUSIVE
    } else {
        ConstantTag::RANGE
    };
    Ok((single(tag, fields::bits_of(from), fields::bits_of(to)), c))
}

// The name and the count; the kind follows the curried constants.
fn pointer(s: &[u8], c: Cursor) -> Read<Head>
    ensures { parts.headed parts.pointer_front s.now c ≡ answer result }
{
    let (span, c) = fields::string(s, c)?;
    let (items, c) = varint::uvarint(s, c)?;
    let head = Head {
        tag: ConstantTag::FN_PTR,
        span,
        items,
        pointer: true,
        ..BARE
    };
    Ok((head, c))
}
