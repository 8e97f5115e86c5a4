// What a chain does at the end.
ghost use Rattle.std.specs.Prelude.{◌≡◌};
ghost use Rattle.format.specs.File as definition;
ghost use Rattle.grammar.specs.Read.{answer};

use format::records::{OperatorIndex, Tail};
use format::tags::TailTag;
use grammar::{Cursor, Read};
use refusal::{Place, Refusal};

#[tactic(auto, using(grammar::proofs::Read::reads, crate::proofs::Tags::tags), unfolding(format::specs::File::tail))]
pub fn tail(s: &[u8], c: Cursor) -> Read<Tail>
    ensures { definition.tail s.now c ≡ answer result }
{
    let (tag, c) = fields::byte(s, c)?;
    match tag {
        TailTag::READ => Ok((Tail::Read, c)),
        TailTag::ASSIGN => Ok((Tail::Assign, c)),
        TailTag::ASSIGN_OP => {
            let (op, c) = varint::index(s, c)?;
            Ok((
                Tail::AssignOp {
                    op: OperatorIndex(op),
                },
                c,
            ))
        }
        _ => Err(Refusal::UnknownTag {
            place: Place::Tail,
            byte: tag,
        }),
    }
}
