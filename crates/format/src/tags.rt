// The magic, the version and every tag, each named once. Append only: the numbering is the wire format.

#[derive(Clone, Copy)]
pub struct Header {}

impl Header {
    pub const MAGIC: [u8; 4] = *b"RGRN";

    pub const VERSION: u16 = 11;

    pub const WIDTH: u8 = 8;
}

// The longest artifact that is read, in bytes.
#[derive(Clone, Copy)]
pub struct Limit {}

impl Limit {
    pub const BYTES: usize = 1_048_576;

    pub const DEPTH: usize = 64;
}

// Constants.
#[derive(Clone, Copy)]
pub struct ConstantTag {}

impl ConstantTag {
    pub const UNIT: u8 = 0x00;

    pub const FALSE: u8 = 0x01;

    pub const TRUE: u8 = 0x02;

    pub const INT: u8 = 0x03;

    pub const FLOAT: u8 = 0x04;

    pub const CHAR: u8 = 0x05;

    pub const STRING: u8 = 0x06;

    pub const ARRAY: u8 = 0x07;

    pub const MAP: u8 = 0x08;

    pub const BLOB: u8 = 0x09;

    pub const RANGE: u8 = 0x0a;

    pub const RANGE_INCLUSIVE: u8 = 0x0b;

    pub const FN_PTR: u8 = 0x0d;
}

// What kind of function a function pointer names.
#[derive(Clone, Copy)]
pub struct PointerTag {}

impl PointerTag {
    pub const NORMAL: u8 = 0x81;

    pub const SCRIPT: u8 = 0x82;
}

// Where a chain starts.
#[derive(Clone, Copy)]
pub struct RootTag {}

impl RootTag {
    pub const LOCAL: u8 = 0x01;

    pub const TEMPORARY: u8 = 0x02;

    pub const NAMED: u8 = 0x03;

    pub const THIS: u8 = 0x04;
}

// A chain's steps.
#[derive(Clone, Copy)]
pub struct StepTag {}

impl StepTag {
    pub const INDEX: u8 = 0x01;

    pub const PROPERTY: u8 = 0x02;

    pub const METHOD: u8 = 0x03;
}

// What a chain does at the end.
#[derive(Clone, Copy)]
pub struct TailTag {}

impl TailTag {
    pub const READ: u8 = 0x01;

    pub const ASSIGN: u8 = 0x02;

    pub const ASSIGN_OP: u8 = 0x03;
}
