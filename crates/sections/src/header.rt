// The header: magic, version, widths, caps and the debug id as two halves (section 1 of document 01).
ghost use Rattle.std.specs.Prelude.{◌≡◌};
ghost use Rattle.format.specs.File as definition;
ghost use Rattle.sections.specs.Answers.{header_is};

use crate::fixed;
use format::answer::Header;
use format::tags;
use grammar::{Cursor, Read};
use refusal::Refusal;

// The widths are judged as soon as caps is read.
#[tactic(auto, using(grammar::proofs::Read::reads, crate::proofs::Taken::fields), unfolding(format::specs::File::header))]
pub fn header(s: &[u8], c: Cursor) -> Read<Header>
    ensures { definition.header s.now c ≡ header_is result }
{
    let (magic, c) = fixed::bytes::<4>(s, c)?;
    if magic != tags::Header::MAGIC {
        return Err(Refusal::BadMagic);
    }
    let (version, c) = fixed::two(s, c)?;
    if version != tags::Header::VERSION {
        return Err(Refusal::UnsupportedVersion {
            found: version,
            supported: tags::Header::VERSION,
        });
    }
    let (int, c) = fields::byte(s, c)?;
    let (float, c) = fields::byte(s, c)?;
    let (caps, c) = fixed::four(s, c)?;
    if int != tags::Header::WIDTH || float != tags::Header::WIDTH {
        return Err(Refusal::Abi { int, float });
    }
    let (low, c) = fixed::eight(s, c)?;
    let (high, c) = fixed::eight(s, c)?;
    Ok((Header { caps, low, high }, c))
}
