// The row of a record (specs/Rows.antt): its words in its table.
ghost use Rattle.std.specs.Prelude.{◌≡◌};
ghost use Rattle.format.specs.Rows.{assign_words, site_row, input_row, function_row, parameter_row};
ghost use Rattle.format.specs.Rows.{line, column, root_words, tail_words, chain_row, step_row, switch_row, case_row, range_row};
ghost use Rattle.format.specs.declared.records.Step.{Step};

use crate::records::{
    Access, Assign, Case, Chain, Function, Input, NameIndex, Position, Range, Root, Site, Step,
    Switch, Tail,
};
use crate::tags::{RootTag, StepTag, TailTag};

impl From<Assign> for [u64; 6] {
    ghost from_gives = { λ a row. row ≡ assign_words a };

    fn from(a: Assign) -> [u64; 6] {
        [
            a.op_assign.start as u64,
            a.op_assign.size as u64,
            a.op_assign_name.0 as u64,
            a.op.start as u64,
            a.op.size as u64,
            a.op_name.0 as u64,
        ]
    }
}

impl From<Site> for [u64; 3] {
    ghost from_gives = { λ s row. row ≡ site_row s };

    fn from(s: Site) -> [u64; 3] {
        [s.key as u64, s.state as u64, s.inputs]
    }
}

impl From<Input> for [u64; 5] {
    ghost from_gives = { λ i row. row ≡ input_row i };

    fn from(i: Input) -> [u64; 5] {
        let (present, index) = match i.literal {
            None => (0, 0),
            Some(index) => (1, index as u64),
        };
        [
            i.chunk.entry as u64,
            i.chunk.end as u64,
            i.chunk.slots as u64,
            present,
            index,
        ]
    }
}

impl From<Function> for [u64; 7] {
    ghost from_gives = { λ f row. row ≡ function_row f };

    fn from(f: Function) -> [u64; 7] {
        let access = match f.access {
            Access::Public => 0,
            Access::Private => 1,
        };
        let this_type = match f.this_type {
            None => 0,
            Some(index) => index as u64 + 1,
        };
        [
            f.name.0 as u64,
            access,
            this_type,
            f.parameters,
            f.chunk.entry as u64,
            f.chunk.end as u64,
            f.chunk.slots as u64,
        ]
    }
}

impl From<NameIndex> for [u64; 1] {
    ghost from_gives = { λ name row. row ≡ parameter_row name };

    fn from(name: NameIndex) -> [u64; 1] {
        [name.0 as u64]
    }
}

// A position's two words; none is 0 and 0.
fn line_word(p: Option<Position>) -> u64
    ensures { result ≡ line p }
{
    match p {
        None => 0,
        Some(at) => at.line as u64,
    }
}

fn column_word(p: Option<Position>) -> u64
    ensures { result ≡ column p }
{
    match p {
        None => 0,
        Some(at) => at.column as u64,
    }
}

impl From<Root> for [u64; 5] {
    ghost from_gives = { λ r row. row ≡ root_words r };

    fn from(r: Root) -> [u64; 5] {
        match r {
            Root::Local { slot, name } => [RootTag::LOCAL as u64, slot as u64, name.0 as u64, 0, 0],
            Root::Temporary => [RootTag::TEMPORARY as u64, 0, 0, 0, 0],
            Root::Named { name, position } => [
                RootTag::NAMED as u64,
                0,
                name.0 as u64,
                line_word(position),
                column_word(position),
            ],
            Root::This { position } => [
                RootTag::THIS as u64,
                0,
                0,
                line_word(position),
                column_word(position),
            ],
        }
    }
}

impl From<Tail> for [u64; 2] {
    ghost from_gives = { λ t row. row ≡ tail_words t };

    fn from(t: Tail) -> [u64; 2] {
        match t {
            Tail::Read => [TailTag::READ as u64, 0],
            Tail::Assign => [TailTag::ASSIGN as u64, 0],
            Tail::AssignOp { op } => [TailTag::ASSIGN_OP as u64, op.0 as u64],
        }
    }
}

impl From<Chain> for [u64; 9] {
    ghost from_gives = { λ c row. row ≡ chain_row c };

    fn from(c: Chain) -> [u64; 9] {
        let front: [u64; 5] = c.root.into();
        let end: [u64; 2] = c.tail.into();
        [
            front[0],
            front[1],
            front[2],
            front[3],
            front[4],
            c.operands as u64,
            c.steps,
            end[0],
            end[1],
        ]
    }
}

impl From<Step> for [u64; 11] {
    ghost from_gives = { λ s row. row ≡ step_row s };

    fn from(s: Step) -> [u64; 11] {
        match s {
            Step::Index {
                flags,
                operand,
                position,
                bracket,
            } => index_row(flags, operand, position, bracket),
            Step::Property {
                flags,
                name,
                getter,
                setter,
                position,
            } => property_row(flags, name, getter, setter, position),
            Step::Method {
                flags,
                name,
                argc,
                operand,
                position,
            } => method_row(flags, name, argc, operand, position),
        }
    }
}

fn index_row(flags: u8, operand: u16, at: Option<Position>, bracket: Option<Position>) -> [u64; 11]
    ensures { result ≡ step_row (Step.Index flags operand at bracket) }
{
    [
        StepTag::INDEX as u64,
        flags as u64,
        operand as u64,
        0,
        0,
        0,
        0,
        line_word(at),
        column_word(at),
        line_word(bracket),
        column_word(bracket),
    ]
}

fn property_row(
    flags: u8,
    name: NameIndex,
    getter: NameIndex,
    setter: NameIndex,
    at: Option<Position>,
) -> [u64; 11]
    ensures { result ≡ step_row (Step.Property flags name getter setter at) }
{
    [
        StepTag::PROPERTY as u64,
        flags as u64,
        0,
        name.0 as u64,
        getter.0 as u64,
        setter.0 as u64,
        0,
        line_word(at),
        column_word(at),
        0,
        0,
    ]
}

fn method_row(flags: u8, name: NameIndex, argc: u8, operand: u16, at: Option<Position>) -> [u64; 11]
    ensures { result ≡ step_row (Step.Method flags name argc operand at) }
{
    [
        StepTag::METHOD as u64,
        flags as u64,
        operand as u64,
        name.0 as u64,
        0,
        0,
        argc as u64,
        line_word(at),
        column_word(at),
        0,
        0,
    ]
}

impl From<Switch> for [u64; 3] {
    ghost from_gives = { λ w row. row ≡ switch_row w };

    fn from(w: Switch) -> [u64; 3] {
        [w.cases, w.ranges, w.default as u64]
    }
}

impl From<Case> for [u64; 2] {
    ghost from_gives = { λ c row. row ≡ case_row c };

    fn from(c: Case) -> [u64; 2] {
        [c.blocks as u64, c.constant.0 as u64]
    }
}

impl From<Range> for [u64; 4] {
    ghost from_gives = { λ r row. row ≡ range_row r };

    fn from(r: Range) -> [u64; 4] {
        [
            r.from.cast_unsigned(),
            r.to.cast_unsigned(),
            r.inclusive as u64,
            r.target as u64,
        ]
    }
}
