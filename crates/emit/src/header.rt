// The header: the magic, the version, both widths, caps and the debug id.
ghost use Rattle.written.specs.Put as definition;
ghost use Rattle.emit.specs.Puts.{Puts};
ghost use Rattle.emit.specs.Headers.{header_of, header_front};

use crate::base::{byte, bytes};
use format::answer::Header;
use format::tags::Header as Front;

// All in front of caps.
fn front(out: &mut [u8], at: usize) -> usize
    ensures { Puts header_front out.old at out.new result }
{
    let behind = bytes(out, at, &Front::MAGIC);
    let version = bytes(out, behind, &Front::VERSION.to_le_bytes());
    let int = byte(out, version, Front::WIDTH);
    byte(out, int, Front::WIDTH)
}

pub fn header(out: &mut [u8], at: usize, h: Header) -> usize
    ensures { Puts (definition.put_header (header_of h)) out.old at out.new result }
{
    let behind = front(out, at);
    let caps = bytes(out, behind, &h.caps.to_le_bytes());
    let low = bytes(out, caps, &h.low.to_le_bytes());
    bytes(out, low, &h.high.to_le_bytes())
}
