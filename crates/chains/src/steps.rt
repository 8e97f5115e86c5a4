// A chain's steps: a tag, flags within the caller's mask, and what belongs to the tag.
ghost use Rattle.std.specs.Prelude.{◌≡◌};
ghost use Rattle.format.specs.File as definition;
ghost use Rattle.grammar.specs.Read.{answer};
ghost use Rattle.chains.specs.Answers.{index_step, property_step, method_step};

use format::records::Step;
use format::tags::StepTag;
use grammar::{Cursor, Read};
use refusal::{Place, Refusal};

// Flags outside the mask are refused before the tag is judged.
#[tactic(auto, using(grammar::proofs::Read::reads, crate::proofs::Tags::tags), unfolding(format::specs::File::step))]
pub fn step(s: &[u8], c: Cursor, mask: u8) -> Read<Step>
    ensures { definition.step mask s.now c ≡ answer result }
{
    let (tag, c) = fields::byte(s, c)?;
    let (flags, c) = fields::byte(s, c)?;
    if flags & mask != flags {
        let place = Place::Flags;
        return Err(Refusal::UnknownTag { place, byte: flags });
    }
    match tag {
        StepTag::INDEX => index_step(s, c, flags),
        StepTag::PROPERTY => property_step(s, c, flags),
        StepTag::METHOD => method_step(s, c, flags),
        _ => Err(Refusal::UnknownTag {
            place: Place::Step,
            byte: tag,
        }),
    }
}

#[tactic(auto, using(grammar::proofs::Read::reads))]
fn index_step(s: &[u8], c: Cursor, flags: u8) -> Read<Step>
    ensures { index_step flags s.now c ≡ answer result }
{
    let (operand, c) = varint::small(s, c)?;
    let (position, c) = fields::position(s, c)?;
    let (bracket, c) = fields::position(s, c)?;
    let step = Step::Index {
        flags,
        operand,
        position,
        bracket,
    };
    Ok((step, c))
}

#[tactic(auto, using(grammar::proofs::Read::reads))]
fn property_step(s: &[u8], c: Cursor, flags: u8) -> Read<Step>
    ensures { property_step flags s.now c ≡ answer result }
{
    let (name, c) = fields::name_index(s, c)?;
    let (getter, c) = fields::name_index(s, c)?;
    let (setter, c) = fields::name_index(s, c)?;
    let (position, c) = fields::position(s, c)?;
    let step = Step::Property {
        flags,
        name,
        getter,
        setter,
        position,
    };
    Ok((step, c))
}

#[tactic(auto, using(grammar::proofs::Read::reads))]
fn method_step(s: &[u8], c: Cursor, flags: u8) -> Read<Step>
    ensures { method_step flags s.now c ≡ answer result }
{
    let (name, c) = fields::name_index(s, c)?;
    let (argc, c) = fields::byte(s, c)?;
    let (operand, c) = varint::small(s, c)?;
    let (position, c) = fields::position(s, c)?;
    let step = Step::Method {
        flags,
        name,
        argc,
        operand,
        position,
    };
    Ok((step, c))
}
