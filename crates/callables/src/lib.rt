#![tactic(auto)]
// Custom syntax and functions: records with a list of items, each in a table of its own (sections 8 and 9 of document 01).

pub mod customs;
pub mod functions;
