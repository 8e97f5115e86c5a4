// What stands outside the tables.
ghost use Rattle.written.specs.Put as definition;
ghost use Rattle.emit.specs.Puts.{Puts};

use crate::base::number;
use format::records::Chunk;

pub fn chunk(out: &mut [u8], at: usize, c: Chunk) -> usize
    ensures { Puts (definition.put_chunk c) out.old at out.new result }
{
    let entry = number(out, at, c.entry as u64);
    let end = number(out, entry, c.end as u64);
    number(out, end, c.slots as u64)
}
