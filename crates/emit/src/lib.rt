#![tactic(auto)]
// Records, and tables of them, as bytes in a lent output: each function puts what written/specs/Put.antt says of its record, from a place
// on, and answers the place behind (specs/Puts.antt). That there is room was counted before (crate sizes).
// The output and the place in it travel side by side: as one struct with methods they were proved too, but the place then goes through
// memory, and a write of 24 KB took a fifth longer or more.

pub mod base;
pub mod callable;
pub mod chain;
pub mod constant;
pub mod header;
pub mod lists;
pub mod numbers;
pub mod owning;
mod record;
pub mod records;
pub mod switch;
mod words;
