#![tactic(auto)]
// The cursor that holds its slice (`Cursor` of format/mod.rs), after the core, whose reads by value it calls. A read moves
// nothing: `moved` takes the next place.
ghost use Rattle.std.specs.Prelude.{◌≡◌, length, leb};
ghost use Rattle.grammar.specs.Outcome.{start, advanced};
ghost use Rattle.grammar.specs.Combinators as combinators;
ghost use Rattle.grammar.specs.Number as numbers;
ghost use Rattle.grammar.specs.Read.{answer};
ghost use Rattle.format.specs.File as definition;
ghost use Rattle.fields.specs.Answers.{text_is};

use grammar::{Read, Span};

#[derive(Clone, Copy)]
pub struct Cursor<'a> {
    pub bytes: &'a [u8],
    pub pos: usize,
}

impl<'a> Cursor<'a> {
    pub fn new(bytes: &'a [u8]) -> Cursor<'a>
        ensures { (result.bytes ≡ bytes.entry) × (result.pos ≡ 0) }
    {
        Cursor { bytes, pos: 0 }
    }

    // The same bytes, at the place that a read answered.
    pub fn moved(self, next: grammar::Cursor) -> Cursor<'a>
        ensures { (result.bytes ≡ self.entry.bytes) × (result.pos ≡ next.at) }
    {
        Cursor {
            bytes: self.bytes,
            pos: next.at,
        }
    }

    // The place by value.
    fn place(self) -> grammar::Cursor
        ensures { result ≡ advanced start self.entry.pos }
    {
        grammar::Cursor::new().advance(self.pos)
    }

    pub fn byte(self) -> Read<u8>
        ensures { combinators.byte self.entry.bytes.now (advanced start self.entry.pos) ≡ answer result }
    {
        fields::byte(self.bytes, self.place())
    }

    pub fn number(self) -> Read<u64>
        ensures { numbers.number 64 self.entry.bytes.now (advanced start self.entry.pos) ≡ answer result }
    {
        varint::uvarint(self.bytes, self.place())
    }

    pub fn index(self) -> Read<u32>
        ensures { numbers.index self.entry.bytes.now (advanced start self.entry.pos) ≡ answer result }
    {
        varint::index(self.bytes, self.place())
    }

    pub fn small(self) -> Read<u16>
        ensures { numbers.small self.entry.bytes.now (advanced start self.entry.pos) ≡ answer result }
    {
        varint::small(self.bytes, self.place())
    }

    pub fn signed(self) -> Read<i64>
        ensures { numbers.signed self.entry.bytes.now (advanced start self.entry.pos) ≡ answer result }
    {
        varint::ivarint(self.bytes, self.place())
    }

    pub fn string(self) -> Read<Span>
        ensures { definition.string self.entry.bytes.now (advanced start self.entry.pos) ≡ text_is self.entry.bytes.now result }
    {
        fields::string(self.bytes, self.place())
    }

    // Whether no byte is left: the place is the end, or past it.
    pub fn at_end(self) -> bool
        ensures { result ≡ leb (length self.entry.bytes.now) self.entry.pos }
    {
        self.bytes.len() <= self.pos
    }
}

// The number in front of the bytes.
pub fn first_number(bytes: &[u8]) -> Read<u64>
    ensures { numbers.number 64 bytes.now start ≡ answer result }
{
    Cursor::new(bytes).number()
}
