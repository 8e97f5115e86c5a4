#![tactic(auto)]
// From the words of a row back to its record, for any words: definitions (specs/Back.antt), and the words of a row, read from a table.
// The rows that a read stores are format's (specs/Rows.antt).

pub mod constants;
pub mod row;
