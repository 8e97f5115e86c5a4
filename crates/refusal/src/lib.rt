#![tactic(auto)]
// Why something was refused: document 01's table, a variant for each row, under its name there and in its order.
// From `ReadError` of format/mod.rs and `Error` of pos/mod.rs, with the rows that document 01 adds.
ghost use Rattle.std.specs.Prelude.{◌≡◌};
ghost use Rattle.refusal.specs.Numbers.{positions_row, row_of, row_is};

// Where the byte stood that is no known tag, or the flags outside the mask, by the numbers of the table.
#[derive(Clone, Copy)]
pub enum Place {
    Constant = 1,
    Root,
    Flags,
    Step,
    Tail,
}

// What is wrong with the names, by the numbers of the table.
#[derive(Clone, Copy)]
pub enum NamesFault {
    Falls = 1,
    LastEnd,
    NotUtf8,
}

// What is wrong with a position table.
#[derive(Clone, Copy)]
pub enum PositionsFault {
    Truncated,
    Overflow,
    OutOfOrder { earlier: u32 },
    Trailing { count: usize },
}

#[derive(Clone, Copy)]
pub enum Refusal {
    TooLong { length: usize },
    Truncated,
    BadMagic,
    UnsupportedVersion { found: u16, supported: u16 },
    Abi { int: u8, float: u8 },
    MalformedVarint,
    BadUtf8,
    UnknownTag { place: Place, byte: u8 },
    ConstantTooDeep,
    BadIndex { place: usize, index: u32 },
    Names(NamesFault),
    Positions(PositionsFault),
    TrailingBytes { count: usize },
    Full { table: u8 },
    BadModel { rule: u8 },
    NoRoom { needed: usize },
    NotAscending { address: u32, earlier: u32 },
}

// A row of the table: values not shown are 0.
#[derive(Clone, Copy)]
pub struct Row {
    pub number: u64,
    pub first: u64,
    pub second: u64,
}

// The row of document 01's table.
impl From<Refusal> for Row {
    ghost from_gives = { λ r row. row ≡ row_of r };

    fn from(r: Refusal) -> Row {
        match r {
            Refusal::TooLong { length } => row_is(1, length as u64, 0),
            Refusal::Truncated => row_is(2, 0, 0),
            Refusal::BadMagic => row_is(3, 0, 0),
            Refusal::UnsupportedVersion { found, supported } => row_is(
                4,
                found as u64,
                supported as u64,
            ),
            Refusal::Abi { int, float } => row_is(5, int as u64, float as u64),
            Refusal::MalformedVarint => row_is(6, 0, 0),
            Refusal::BadUtf8 => row_is(7, 0, 0),
            Refusal::UnknownTag { place, byte } => row_is(8, place as u64, byte as u64),
            Refusal::ConstantTooDeep => row_is(9, 0, 0),
            Refusal::BadIndex { place, index } => row_is(10, place as u64, index as u64),
            Refusal::Names(fault) => row_is(11, fault as u64, 0),
            Refusal::Positions(fault) => positions_row(fault),
            Refusal::TrailingBytes { count } => row_is(13, count as u64, 0),
            Refusal::Full { table } => row_is(14, table as u64, 0),
            Refusal::BadModel { rule } => row_is(15, rule as u64, 0),
            Refusal::NoRoom { needed } => row_is(16, needed as u64, 0),
            Refusal::NotAscending { address, earlier } => row_is(
                17,
                address as u64,
                earlier as u64,
            ),
        }
    }
}

fn row_is(number: u64, first: u64, second: u64) -> Row
    ensures { result ≡ row_is number first second }
{
    Row {
        number,
        first,
        second,
    }
}

fn positions_row(f: PositionsFault) -> Row
    ensures { result ≡ positions_row f }
{
    match f {
        PositionsFault::Truncated => row_is(12, 1, 0),
        PositionsFault::Overflow => row_is(12, 2, 0),
        PositionsFault::OutOfOrder { earlier } => row_is(12, 3, earlier as u64),
        PositionsFault::Trailing { count } => row_is(12, 4, count as u64),
    }
}
