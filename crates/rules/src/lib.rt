#![tactic(auto)]
// The rules of well-formed tables as tests (document 01, "Well-formed tables, and writing"; specs/Rules.antt of model).

pub mod counts;
pub mod each;
pub mod names;
pub mod once;
pub mod positions;
pub mod records;
pub mod shares;
pub mod texts;
pub mod trees;
pub mod whole;
pub mod words;
