// The records of an artifact, by value. Counts stand where the Rust has a `Vec`; the items are rows of another table.

use grammar::Span;

// Three kinds of index that cannot be exchanged: into the names, the top constants, the assign records.
#[derive(Clone, Copy)]
pub struct NameIndex(pub u32);

#[derive(Clone, Copy)]
pub struct ConstantIndex(pub u32);

#[derive(Clone, Copy)]
pub struct OperatorIndex(pub u32);

// A source position.
#[derive(Clone, Copy)]
pub struct Position {
    pub line: u16,
    pub column: u16,
}

// A run of code and the slots that it needs.
#[derive(Clone, Copy)]
pub struct Chunk {
    pub entry: u32,
    pub end: u32,
    pub slots: u16,
}

// An operator that assigns: its two tokens and their names.
#[derive(Clone, Copy)]
pub struct Assign {
    pub op_assign: Span,
    pub op_assign_name: NameIndex,
    pub op: Span,
    pub op_name: NameIndex,
}

#[derive(Clone, Copy)]
pub enum Root {
    Local {
        slot: u16,
        name: NameIndex,
    },
    Temporary,
    Named {
        name: NameIndex,
        position: Option<Position>,
    },
    This {
        position: Option<Position>,
    },
}

#[derive(Clone, Copy)]
pub enum Tail {
    Read,
    Assign,
    AssignOp { op: OperatorIndex },
}

#[derive(Clone, Copy)]
pub enum Step {
    Index {
        flags: u8,
        operand: u16,
        position: Option<Position>,
        bracket: Option<Position>,
    },
    Property {
        flags: u8,
        name: NameIndex,
        getter: NameIndex,
        setter: NameIndex,
        position: Option<Position>,
    },
    Method {
        flags: u8,
        name: NameIndex,
        argc: u8,
        operand: u16,
        position: Option<Position>,
    },
}

#[derive(Clone, Copy)]
pub struct Chain {
    pub root: Root,
    pub operands: u16,
    pub steps: u64,
    pub tail: Tail,
}

#[derive(Clone, Copy)]
pub struct Case {
    pub blocks: u32,
    pub constant: ConstantIndex,
}

#[derive(Clone, Copy)]
pub struct Range {
    pub from: i64,
    pub to: i64,
    pub inclusive: bool,
    pub target: u32,
}

#[derive(Clone, Copy)]
pub struct Switch {
    pub cases: u64,
    pub ranges: u64,
    pub default: u32,
}

#[derive(Clone, Copy)]
pub struct Input {
    pub chunk: Chunk,
    pub literal: Option<u32>,
}

#[derive(Clone, Copy)]
pub struct Site {
    pub key: u32,
    pub state: u32,
    pub inputs: u64,
}

#[derive(Clone, Copy)]
pub enum Access {
    Public,
    Private,
}

#[derive(Clone, Copy)]
pub struct Function {
    pub name: NameIndex,
    pub access: Access,
    pub this_type: Option<u32>,
    pub parameters: u64,
    pub chunk: Chunk,
}
