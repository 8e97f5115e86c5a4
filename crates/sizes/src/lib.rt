#![tactic(auto)]
// The bytes that tables take, without putting them: each function counts from a place on what written/specs/Put.antt says of its section,
// and answers the place behind (specs/Counts.antt). A row's size comes of its words with no branch on a tag or a width, since what a
// branch costs that cannot be foreseen is more than the sizes of all its ways. Items are counted by themselves, not within their owners.

pub mod base;
pub mod callable;
pub mod chain;
pub mod constant;
pub mod lists;
mod record;
pub mod switch;
mod words;
