// Constants, one row each: a list says how many constants it has as its items, and their rows follow its own. What constant a row's words
// mean is specs/Back.antt's, and what tree the rows make specs/Tree.antt's.
use grammar::Span;

// What kind of function a pointer names.
#[derive(Clone, Copy)]
pub enum Kind {
    Normal,
    Script { parameters: u64 },
}

#[derive(Clone, Copy)]
pub enum Constant {
    Unit,
    Boolean { value: bool },
    Int(i64),
    Float { bits: u64 },
    Char { code: u32 },
    Str(Span),
    Array { items: u64 },
    Map { items: u64 },
    Blob(Span),
    Range { from: i64, to: i64 },
    RangeInclusive { from: i64, to: i64 },
    Pointer { name: Span, items: u64, kind: Kind },
}

// A constant and the key that it has if it is a map's.
#[derive(Clone, Copy)]
pub struct Keyed {
    pub key: Span,
    pub constant: Constant,
}
