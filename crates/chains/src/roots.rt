// Where a chain starts: a tag, and what belongs to it.
ghost use Rattle.std.specs.Prelude.{◌≡◌};
ghost use Rattle.format.specs.File as definition;
ghost use Rattle.grammar.specs.Read.{answer};

use format::records::Root;
use format::tags::RootTag;
use grammar::{Cursor, Read};
use refusal::{Place, Refusal};

#[tactic(auto, using(grammar::proofs::Read::reads, crate::proofs::Tags::tags), unfolding(format::specs::File::root))]
pub fn root(s: &[u8], c: Cursor) -> Read<Root>
    ensures { definition.root s.now c ≡ answer result }
{
    let (tag, c) = fields::byte(s, c)?;
    match tag {
        RootTag::LOCAL => {
            let (slot, c) = varint::small(s, c)?;
            let (name, c) = fields::name_index(s, c)?;
            Ok((Root::Local { slot, name }, c))
        }
        RootTag::TEMPORARY => Ok((Root::Temporary, c)),
        RootTag::NAMED => {
            let (name, c) = fields::name_index(s, c)?;
            let (position, c) = fields::position(s, c)?;
            Ok((Root::Named { name, position }, c))
        }
        RootTag::THIS => {
            let (position, c) = fields::position(s, c)?;
            Ok((Root::This { position }, c))
        }
        _ => Err(Refusal::UnknownTag {
            place: Place::Root,
            byte: tag,
        }),
    }
}
