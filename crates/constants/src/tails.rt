#![tactic(auto, using(grammar::proofs::Read::reads))]
// What stands behind a constant's items: a function pointer's kind; and the row, stored once it is known.
ghost use Rattle.std.specs.Prelude.{◌≡◌, ◌*◌, ◌/◌, ◌<◌, length};
ghost use Rattle.grammar.specs.Read.{answer};
ghost use Rattle.constants.specs.Kept.{Kept};
ghost use Rattle.constants.specs.Parts as parts;

use crate::heads::Head;
use format::tags::PointerTag;
use grammar::{Cursor, Read, Span};
use refusal::{Place, Refusal};

// The words a and b of a row: 81, or 82 and a parameter count.
fn kind(s: &[u8], c: Cursor) -> Read<(u64, u64)>
    ensures { parts.kind_tail s.now c ≡ answer result }
{
    let (tag, c) = fields::byte(s, c)?;
    kind_by_tag(s, c, tag)
}

#[tactic(auto, using(crate::proofs::Tags::tags_here, grammar::proofs::Read::reads), unfolding(crate::specs::Parts::kind_of))]
fn kind_by_tag(s: &[u8], c: Cursor, tag: u8) -> Read<(u64, u64)>
    ensures { parts.kind_of tag s.now c ≡ answer result }
{
    match tag {
        PointerTag::NORMAL => Ok(((PointerTag::NORMAL as u64, 0), c)),
        PointerTag::SCRIPT => script(s, c),
        _ => Err(Refusal::UnknownTag {
            place: Place::Constant,
            byte: tag,
        }),
    }
}

fn script(s: &[u8], c: Cursor) -> Read<(u64, u64)>
    ensures { parts.script_tail s.now c ≡ answer result }
{
    let (count, c) = varint::uvarint(s, c)?;
    Ok(((PointerTag::SCRIPT as u64, count), c))
}

#[tactic(auto, unfolding(grammar::specs::Outcome::pure))]
fn tail_of(s: &[u8], c: Cursor, head: Head) -> Read<(u64, u64)>
    ensures { parts.tail_of head s.now c ≡ answer result }
{
    if head.pointer {
        kind(s, c)
    } else {
        Ok(((head.a, head.b), c))
    }
}

// The tail of a constant whose items end behind some places used, and then its row, at the place that was kept for it.
pub fn closed(
    s: &[u8],
    c: Cursor,
    head: Head,
    key: Span,
    used: usize,
    behind: usize,
    t: &mut [u64],
) -> Read<usize>
    requires { used < length t.old / 8 }
    ensures { Kept (parts.tail_of head s.now c) (λ ab. behind) (parts.head_row head key) (used * 8) t.old t.new result }
{
    let ((a, b), next) = tail_of(s, c, head)?;
    let span = head.span;
    tables::store(
        t,
        used * 8,
        &[
            head.tag as u64,
            a,
            b,
            span.start as u64,
            span.size as u64,
            head.items,
            key.start as u64,
            key.size as u64,
        ],
    );
    Ok((behind, next))
}
