#![tactic(auto)]
// The header, the names, the sections whose records stand in one table, and the position table.

pub mod assigns;
pub mod fixed;
pub mod header;
pub mod names;
pub mod positions;
pub mod tokens;
