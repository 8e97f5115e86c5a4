#![tactic(auto)]
// What is said of a position table: its entries, and what is found in one. There is no code here: specs/Table.antt and
// specs/Encode.antt are the definition of position tables, and `pos` has the functions.

// A place in a source file, and the address that it is recorded for.
#[derive(Clone, Copy)]
pub struct Site {
    pub address: u32,
    pub line: u32,
    pub column: u32,
}

// A place in a source file.
#[derive(Clone, Copy)]
pub struct Position {
    pub line: u32,
    pub column: u32,
}
